//! What the numbers stand for; the lines are tried by the tests of the crates above.
use crate::{entry, judgements, terms};
use ld_record::Deriv;
use ld_terms::{Bank, Node};
use std::test::Fail;

#[test]
fn adds_the_terms(rt: HostRuntime) -> Result<(), Fail> {
    let mut bank = Bank::new(rt.alloc());
    let terms = terms(&mut bank)?;
    assert_eq!(rt; bank.node(terms.product), Node::Pi(terms.star, terms.star));
    assert_eq!(rt;
        bank.node(terms.identity),
        Node::Lam(terms.star, terms.inner)
    );
    assert_eq!(rt; bank.node(terms.outer), Node::Var(1));
    Ok(())
}

#[test]
fn keeps_the_judgements(rt: HostRuntime) -> Result<(), Fail> {
    let mut bank = Bank::new(rt.alloc());
    let mut deriv = Deriv::new(rt.alloc());
    let terms = terms(&mut bank)?;
    let judges = judgements(&mut deriv, &bank, terms)?;
    // Six judgements and two contexts.
    assert_eq!(rt; deriv.count(), 8);
    let judge = deriv.judge(&bank, judges.identity);
    assert_eq!(rt; (judge.term, judge.of), (terms.identity, terms.product));
    Ok(())
}

#[test]
fn makes_an_entry(rt: HostRuntime) -> Result<(), Fail> {
    let mut bank = Bank::new(rt.alloc());
    let terms = terms(&mut bank)?;
    let entry = entry(rt.alloc(), &[terms.star], None, terms.over)?;
    let params = entry.params.as_slice();
    assert_eq!(rt; (params.len(), params.first()), (1, Some(&terms.star)));
    assert_eq!(rt; (entry.body, entry.of), (None, terms.over));
    Ok(())
}
