//! Derivations over a primitive `A : *`, record by record: of a product, of an abstraction and its application, of a flag.

use crate::Deriv;
use crate::sample::{identity_terms, judged_application, judged_product, product_terms};
use fb_base::Text;
use ld_terms::Bank;
use std::test::Fail;

#[test]
fn nothing_is_kept(rt: HostRuntime) {
    let deriv = Deriv::new(rt.alloc());
    assert_eq!(rt; deriv.count(), 0);
    assert_eq!(rt; deriv.empty().number(), 0);
}

#[test]
fn keeps_a_product(rt: HostRuntime) -> Result<(), Fail> {
    let mut bank = Bank::new(rt.alloc());
    let terms = product_terms(&mut bank)?;
    let name = Text::from_bytes(rt.alloc(), b"A")?;
    let mut deriv = Deriv::new(rt.alloc());
    let (_, _, last) = judged_product(&mut deriv, &bank, terms, name, rt.alloc())?;
    assert_eq!(rt; deriv.count(), 7);
    let wanted = [
        "Node(Judge { entries: 0, ctx: CtxId(0), term: TermId(0), of: TermId(1) }, Sort)",
        "Entry(Text { bytes: [65] }, JudgeId(0), true)",
        "Node(Judge { entries: 1, ctx: CtxId(0), term: TermId(0), of: TermId(1) }, DefPrim(JudgeId(0)))",
        "Node(Judge { entries: 1, ctx: CtxId(0), term: TermId(3), of: TermId(0) }, InstPrim(JudgeId(1), Judges { judges: [] }))",
        "Context(CtxId(0), TermId(3))",
        "Node(Judge { entries: 1, ctx: CtxId(1), term: TermId(3), of: TermId(0) }, Weak(JudgeId(2), JudgeId(2)))",
        "Node(Judge { entries: 1, ctx: CtxId(0), term: TermId(4), of: TermId(0) }, Form(JudgeId(2), JudgeId(3)))",
    ];
    for (place, record) in wanted.iter().enumerate() {
        let kept = format!(in rt.alloc(); "{:?}", deriv.kept(place))?;
        assert_eq!(rt; kept.as_str(), *record, "at {place}");
    }
    let judge = deriv.judge(&bank, last);
    assert_eq!(rt; (judge.entries, judge.ctx.number()), (1, 0));
    assert_eq!(rt; (judge.term, judge.of), (terms.3, terms.0));
    assert_eq!(rt; last.number(), 4);
    Ok(())
}

#[test]
fn keeps_an_application_and_a_flag(rt: HostRuntime) -> Result<(), Fail> {
    let mut bank = Bank::new(rt.alloc());
    let terms = product_terms(&mut bank)?;
    let applied = identity_terms(&mut bank, terms.2)?;
    let name = Text::from_bytes(rt.alloc(), b"A")?;
    let mut deriv = Deriv::new(rt.alloc());
    let judged = judged_product(&mut deriv, &bank, terms, name, rt.alloc())?;
    judged_application(&mut deriv, &bank, terms.2, terms.3, applied, judged)?;
    assert_eq!(rt; deriv.count(), 12);
    let wanted = [
        "Node(Judge { entries: 1, ctx: CtxId(1), term: TermId(5), of: TermId(3) }, Var(JudgeId(2)))",
        "Node(Judge { entries: 1, ctx: CtxId(0), term: TermId(6), of: TermId(4) }, Abst(JudgeId(5), JudgeId(4)))",
        "Node(Judge { entries: 1, ctx: CtxId(1), term: TermId(6), of: TermId(4) }, Weak(JudgeId(6), JudgeId(2)))",
        "Node(Judge { entries: 1, ctx: CtxId(1), term: TermId(7), of: TermId(3) }, Appl(JudgeId(7), JudgeId(5)))",
        "Flag(JudgeId(4))",
    ];
    for (place, record) in wanted.iter().enumerate() {
        let kept = format!(in rt.alloc(); "{:?}", deriv.kept(7 + place))?;
        assert_eq!(rt; kept.as_str(), *record, "at {place}");
    }
    Ok(())
}
