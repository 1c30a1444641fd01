//! Judgements of the terms `*`, `all x : *. *` and `fun x : *. x`, and of one and two variables of type `*`.
ghost use Rattle.std.specs.Prelude.{◌≡◌, [], Err, IfOk, OnOk};
ghost use Rattle.ld_terms.specs.Bank.{Extends};
ghost use Rattle.ld_record.specs.Kept.{known_of, IsSound};
ghost use Rattle.ld_record.specs.Growth.{Knows, Adds};
ghost use Rattle.ld_samples.specs.Samples as sample;

use fb_base::NoMemory;
use ld_record::{Deriv, Judge, JudgeId, Step};
use ld_terms::{Bank, Node, TermFault, TermId};

/// The terms of the judgements.
#[derive(Clone, Copy, Debug)]
pub struct SampleTerms {
    /// `*`
    pub star: TermId,
    /// `box`
    pub over: TermId,
    /// The variable of index 0.
    pub inner: TermId,
    /// The variable of index 1.
    pub outer: TermId,
    /// `all x : *. *`
    pub product: TermId,
    /// `fun x : *. x`
    pub identity: TermId,
}

/// The judgements, each over no entries.
#[derive(Clone, Copy, Debug)]
pub struct SampleJudges {
    /// `* : box`, in the context of a variable of type `*`.
    pub inner_sort: JudgeId,
    /// This variable.
    pub variable: JudgeId,
    /// The same behind one more variable of type `*`.
    pub outer_variable: JudgeId,
    /// `all x : *. * : box`
    pub product: JudgeId,
    /// `fun x : *. x : all x : *. *`
    pub identity: JudgeId,
}

/// The terms, added to a bank.
pub fn terms(bank: &mut Bank) -> Result<SampleTerms, TermFault>
    ensures terms { IfOk result (λ terms. sample.AreTerms bank.new terms) }
    ensures kept { OnOk result (Extends bank.old bank.new) }
    ensures never_high { result ≡ Err TermFault.High → ⊥ }
{
    let star = bank.add(Node::Star)?;
    let over = bank.add(Node::Box_)?;
    let inner = bank.add(Node::Var(0))?;
    let outer = bank.add(Node::Var(1))?;
    let product = bank.add(Node::Pi(star, star))?;
    let identity = bank.add(Node::Lam(star, inner))?;
    Ok(SampleTerms {
        star,
        over,
        inner,
        outer,
        product,
        identity,
    })
}

/// The judgements of the terms, as the first records of a derivation.
pub fn judgements(
    deriv: &mut Deriv,
    bank: &Bank,
    terms: SampleTerms,
) -> Result<SampleJudges, NoMemory>
    requires none { deriv.old ≡ [] }
    requires terms { sample.AreTerms bank.now terms }
    ensures judged { IfOk result (λ judges. sample.AreJudged (known_of bank.now deriv.new) judges) }
    ensures sound { OnOk result (IsSound bank.now deriv.new) }
{
    let sort = sort(deriv, bank, terms)?;
    let inner_sort = inner_sort(deriv, bank, terms, sort)?;
    let variable = variable(deriv, bank, terms, sort, inner_sort)?;
    let outer_variable = outer_variable(deriv, bank, terms, variable, inner_sort)?;
    let product = product(deriv, bank, terms, sort, inner_sort)?;
    let identity = identity(deriv, bank, terms, variable, product)?;
    Ok(SampleJudges {
        inner_sort,
        variable,
        outer_variable,
        product,
        identity,
    })
}

// `* : box`
fn sort(deriv: &mut Deriv, bank: &Bank, terms: SampleTerms) -> Result<JudgeId, NoMemory>
    requires none { deriv.old ≡ [] }
    requires terms { sample.AreTerms bank.now terms }
    ensures number { IfOk result (λ j. Knows (known_of bank.now deriv.new) j sample.sort) }
    ensures env { (known_of bank.now deriv.new).env ≡ [] }
    ensures sound { IsSound bank.now deriv.new }
{
    let judge = Judge {
        entries: 0,
        ctx: deriv.empty(),
        term: terms.star,
        of: terms.over,
    };
    deriv.emit(bank, judge, Step::Sort)
}

// `* : box` in the context of a variable of type `*`
fn inner_sort(
    deriv: &mut Deriv,
    bank: &Bank,
    terms: SampleTerms,
    j: JudgeId,
) -> Result<JudgeId, NoMemory>
    requires sound { IsSound bank.now deriv.old }
    requires terms { sample.AreTerms bank.now terms }
    requires judged { Knows (known_of bank.now deriv.old) j sample.sort }
    ensures number { IfOk result (λ k. Knows (known_of bank.now deriv.new) k sample.inner_sort) }
    ensures adds { Adds (known_of bank.now deriv.old) (known_of bank.now deriv.new) }
    ensures sound { IsSound bank.now deriv.new }
{
    let empty = deriv.empty();
    let ctx = deriv.extend(bank, empty, terms.star)?;
    let judge = Judge {
        entries: 0,
        ctx,
        term: terms.star,
        of: terms.over,
    };
    deriv.emit(bank, judge, Step::Weak(j, j))
}

// `x : *`, in the context of `inner`
fn variable(
    deriv: &mut Deriv,
    bank: &Bank,
    terms: SampleTerms,
    j: JudgeId,
    inner: JudgeId,
) -> Result<JudgeId, NoMemory>
    requires sound { IsSound bank.now deriv.old }
    requires terms { sample.AreTerms bank.now terms }
    requires judged { Knows (known_of bank.now deriv.old) j sample.sort }
    requires inner { Knows (known_of bank.now deriv.old) inner sample.inner_sort }
    ensures number { IfOk result (λ k. Knows (known_of bank.now deriv.new) k sample.variable) }
    ensures adds { Adds (known_of bank.now deriv.old) (known_of bank.now deriv.new) }
    ensures sound { IsSound bank.now deriv.new }
{
    let judge = Judge {
        entries: 0,
        ctx: deriv.judge(bank, inner).ctx,
        term: terms.inner,
        of: terms.star,
    };
    deriv.emit(bank, judge, Step::Var(j))
}

// `x : *` behind one more variable of type `*`
fn outer_variable(
    deriv: &mut Deriv,
    bank: &Bank,
    terms: SampleTerms,
    j: JudgeId,
    inner: JudgeId,
) -> Result<JudgeId, NoMemory>
    requires sound { IsSound bank.now deriv.old }
    requires terms { sample.AreTerms bank.now terms }
    requires judged { Knows (known_of bank.now deriv.old) j sample.variable }
    requires inner { Knows (known_of bank.now deriv.old) inner sample.inner_sort }
    ensures number { IfOk result (λ k. Knows (known_of bank.now deriv.new) k sample.outer_variable) }
    ensures adds { Adds (known_of bank.now deriv.old) (known_of bank.now deriv.new) }
    ensures sound { IsSound bank.now deriv.new }
{
    let before = deriv.judge(bank, inner).ctx;
    let ctx = deriv.extend(bank, before, terms.star)?;
    let judge = Judge {
        entries: 0,
        ctx,
        term: terms.outer,
        of: terms.star,
    };
    deriv.emit(bank, judge, Step::Weak(j, inner))
}

// `all x : *. * : box`
fn product(
    deriv: &mut Deriv,
    bank: &Bank,
    terms: SampleTerms,
    j: JudgeId,
    inner: JudgeId,
) -> Result<JudgeId, NoMemory>
    requires sound { IsSound bank.now deriv.old }
    requires terms { sample.AreTerms bank.now terms }
    requires judged { Knows (known_of bank.now deriv.old) j sample.sort }
    requires inner { Knows (known_of bank.now deriv.old) inner sample.inner_sort }
    ensures number { IfOk result (λ k. Knows (known_of bank.now deriv.new) k sample.product) }
    ensures adds { Adds (known_of bank.now deriv.old) (known_of bank.now deriv.new) }
    ensures sound { IsSound bank.now deriv.new }
{
    let judge = Judge {
        entries: 0,
        ctx: deriv.empty(),
        term: terms.product,
        of: terms.over,
    };
    deriv.emit(bank, judge, Step::Form(j, inner))
}

// `fun x : *. x : all x : *. *`
fn identity(
    deriv: &mut Deriv,
    bank: &Bank,
    terms: SampleTerms,
    body: JudgeId,
    formed: JudgeId,
) -> Result<JudgeId, NoMemory>
    requires sound { IsSound bank.now deriv.old }
    requires terms { sample.AreTerms bank.now terms }
    requires body { Knows (known_of bank.now deriv.old) body sample.variable }
    requires formed { Knows (known_of bank.now deriv.old) formed sample.product }
    ensures number { IfOk result (λ k. Knows (known_of bank.now deriv.new) k sample.identity) }
    ensures adds { Adds (known_of bank.now deriv.old) (known_of bank.now deriv.new) }
    ensures sound { IsSound bank.now deriv.new }
{
    let judge = Judge {
        entries: 0,
        ctx: deriv.empty(),
        term: terms.identity,
        of: terms.product,
    };
    deriv.emit(bank, judge, Step::Abst(body, formed))
}
