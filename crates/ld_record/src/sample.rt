//! Terms and judgements over a primitive `A : *`, for the tests: a product, an abstraction, its application, and a flag.
ghost use Rattle.std.specs.Prelude.{◌≡◌, ◌<◌, ◌≤◌, [], ◌∷◌, length, IfOk, OnOk};
ghost use Rattle.ld_terms.specs.Tree as tree;
ghost use Rattle.ld_terms.specs.Tree.{◌▸◌};
ghost use Rattle.ld_terms.specs.Bank.{StandsFor, Extends};
ghost use Rattle.ld_terms.specs.Known.{nothing, no_judgement, with_node, primitive_entry};
ghost use Rattle.ld_terms.specs.Entry.{Primitive};
ghost use Rattle.ld_record.specs.Follows.{entry_at};
ghost use Rattle.ld_record.specs.Kept.{known_of, IsSound};
ghost use Rattle.ld_record.specs.Growth.{Knows, Adds, over_first};
ghost use Rattle.ld_record.specs.Tests.{AreTerms, AreJudged};

use crate::Deriv;
use crate::record::{Judge, JudgeId, Judges, Step};
use fb_base::{NoMemory, Text};
use ld_terms::{Bank, Node, TermFault, TermId};
use std::alloc::Global;

// The number of a new term, which is `*`; of one which is `box`, the instance `A`, the product of `A` and `A`.
pub(crate) fn star(bank: &mut Bank) -> Result<TermId, TermFault>
    ensures tree { IfOk result (λ t. StandsFor bank.new t tree.Star) }
    ensures kept { Extends bank.old bank.new }
{
    bank.add(Node::Star)
}

fn box_sort(bank: &mut Bank) -> Result<TermId, TermFault>
    ensures tree { IfOk result (λ t. StandsFor bank.new t tree.Box) }
    ensures kept { Extends bank.old bank.new }
{
    bank.add(Node::Box_)
}

fn instance(bank: &mut Bank) -> Result<TermId, TermFault>
    ensures tree { IfOk result (λ t. StandsFor bank.new t (tree.Const 0 tree.Nil)) }
    ensures kept { Extends bank.old bank.new }
{
    let none = bank.add(Node::Nil)?;
    bank.add(Node::Const(0, none))
}

fn product(bank: &mut Bank, a: TermId) -> Result<TermId, TermFault>
    requires { StandsFor bank.old a (tree.Const 0 tree.Nil) }
    ensures tree { IfOk result (λ t. StandsFor bank.new t (tree.Pi (tree.Const 0 tree.Nil) (tree.Const 0 tree.Nil))) }
    ensures kept { Extends bank.old bank.new }
{
    bank.add(Node::Pi(a, a))
}

// The numbers of `*`, `box`, the instance `A`, and the product of `A` and `A`.
pub(crate) fn product_terms(bank: &mut Bank) -> Result<(TermId, TermId, TermId, TermId), TermFault>
    ensures { IfOk result (λ ts. AreTerms bank.new ts.0 ts.1 ts.2 ts.3) }
{
    let star = star(bank)?;
    let box_sort = box_sort(bank)?;
    let a = instance(bank)?;
    let product = product(bank, a)?;
    Ok((star, box_sort, a, product))
}

// `* : box` over no entries.
fn start(
    deriv: &mut Deriv,
    bank: &Bank,
    star: TermId,
    box_sort: TermId,
) -> Result<JudgeId, NoMemory>
    requires none { deriv.old ≡ [] }
    requires star { StandsFor bank.now star tree.Star }
    requires box_sort { StandsFor bank.now box_sort tree.Box }
    ensures known { OnOk result (known_of bank.now deriv.new ≡ with_node nothing no_judgement) }
    ensures number { IfOk result (λ j. j.0 ≡ 0) }
    ensures sound { IsSound bank.now deriv.new }
{
    let judge = Judge {
        entries: 0,
        ctx: deriv.empty(),
        term: star,
        of: box_sort,
    };
    deriv.emit(bank, judge, Step::Sort)
}

// The entry of the primitive, and `* : box` over it.
fn primitive(deriv: &mut Deriv, bank: &Bank, name: Text, j: JudgeId) -> Result<JudgeId, NoMemory>
    requires sound { IsSound bank.now deriv.old }
    requires known { known_of bank.now deriv.old ≡ with_node nothing no_judgement }
    requires number { j.0 ≡ 0 }
    requires some { 0 < length name }
    requires short { length name ≤ 255 }
    ensures env { OnOk result ((known_of bank.now deriv.new).env ≡ primitive_entry name no_judgement ∷ []) }
    ensures number { IfOk result (λ k. Knows (known_of bank.now deriv.new) k (over_first no_judgement 1)) }
    ensures sound { IsSound bank.now deriv.new }
{
    deriv.entry(bank, name, j, true)?;
    deriv.lift_by_def(bank, j, 1)
}

// `A : *` over the primitive, from `* : box` over it.
fn typed(
    deriv: &mut Deriv,
    bank: &Bank,
    a: TermId,
    star: TermId,
    j: JudgeId,
    alloc: Global,
) -> Result<JudgeId, NoMemory>
    requires sound { IsSound bank.now deriv.old }
    requires there { length (known_of bank.now deriv.old).env ≡ 1 }
    requires params { (entry_at (known_of bank.now deriv.old).env 0).params ≡ tree.Nil }
    requires body { (entry_at (known_of bank.now deriv.old).env 0).body ≡ Primitive }
    requires of { (entry_at (known_of bank.now deriv.old).env 0).type ≡ tree.Star }
    requires a { StandsFor bank.now a (tree.Const 0 tree.Nil) }
    requires star { StandsFor bank.now star tree.Star }
    requires over { Knows (known_of bank.now deriv.old) j (over_first no_judgement 1) }
    ensures number { IfOk result (λ k. Knows (known_of bank.now deriv.new) k (record (over_first no_judgement 1) { term = tree.Const 0 tree.Nil; type = tree.Star })) }
    ensures adds { Adds (known_of bank.now deriv.old) (known_of bank.now deriv.new) }
    ensures sound { IsSound bank.now deriv.new }
{
    let judge = Judge {
        entries: 1,
        ctx: deriv.empty(),
        term: a,
        of: star,
    };
    let none = Judges::from_vec(Vec::new(alloc));
    deriv.emit(bank, judge, Step::InstPrim(j, none))
}

// `A : *` over the primitive, in the context of a variable of `A`.
fn weakened(
    deriv: &mut Deriv,
    bank: &Bank,
    a: TermId,
    star: TermId,
    j: JudgeId,
) -> Result<JudgeId, NoMemory>
    requires sound { IsSound bank.now deriv.old }
    requires there { length (known_of bank.now deriv.old).env ≡ 1 }
    requires a { StandsFor bank.now a (tree.Const 0 tree.Nil) }
    requires star { StandsFor bank.now star tree.Star }
    requires typed { Knows (known_of bank.now deriv.old) j (record (over_first no_judgement 1) { term = tree.Const 0 tree.Nil; type = tree.Star }) }
    ensures number { IfOk result (λ k. Knows (known_of bank.now deriv.new) k
        (record (over_first no_judgement 1) { context = tree.Nil ▸ tree.Const 0 tree.Nil; term = tree.Const 0 tree.Nil; type = tree.Star })) }
    ensures adds { Adds (known_of bank.now deriv.old) (known_of bank.now deriv.new) }
    ensures sound { IsSound bank.now deriv.new }
{
    let empty = deriv.empty();
    let ctx = deriv.extend(bank, empty, a)?;
    let judge = Judge {
        entries: 1,
        ctx,
        term: a,
        of: star,
    };
    deriv.emit(bank, judge, Step::Weak(j, j))
}

// The product of `A` and `A`.
fn formed(
    deriv: &mut Deriv,
    bank: &Bank,
    product: TermId,
    star: TermId,
    j: JudgeId,
    k: JudgeId,
) -> Result<JudgeId, NoMemory>
    requires sound { IsSound bank.now deriv.old }
    requires there { length (known_of bank.now deriv.old).env ≡ 1 }
    requires product { StandsFor bank.now product (tree.Pi (tree.Const 0 tree.Nil) (tree.Const 0 tree.Nil)) }
    requires star { StandsFor bank.now star tree.Star }
    requires typed { Knows (known_of bank.now deriv.old) j (record (over_first no_judgement 1) { term = tree.Const 0 tree.Nil; type = tree.Star }) }
    requires weakened { Knows (known_of bank.now deriv.old) k
        (record (over_first no_judgement 1) { context = tree.Nil ▸ tree.Const 0 tree.Nil; term = tree.Const 0 tree.Nil; type = tree.Star }) }
    ensures number { IfOk result (λ l. Knows (known_of bank.now deriv.new) l
        (record (over_first no_judgement 1) { term = tree.Pi (tree.Const 0 tree.Nil) (tree.Const 0 tree.Nil); type = tree.Star })) }
    ensures adds { Adds (known_of bank.now deriv.old) (known_of bank.now deriv.new) }
    ensures sound { IsSound bank.now deriv.new }
{
    let judge = Judge {
        entries: 1,
        ctx: deriv.empty(),
        term: product,
        of: star,
    };
    deriv.emit(bank, judge, Step::Form(j, k))
}

// `A : *`, the same in the context of a variable of `A`, and the product.
pub(crate) fn judged_product(
    deriv: &mut Deriv,
    bank: &Bank,
    terms: (TermId, TermId, TermId, TermId),
    name: Text,
    alloc: Global,
) -> Result<(JudgeId, JudgeId, JudgeId), NoMemory>
    requires none { deriv.old ≡ [] }
    requires terms { AreTerms bank.now terms.0 terms.1 terms.2 terms.3 }
    requires some { 0 < length name }
    requires short { length name ≤ 255 }
    ensures judged { IfOk result (λ js. AreJudged (known_of bank.now deriv.new) js.0 js.1 js.2) }
    ensures sound { OnOk result (IsSound bank.now deriv.new) }
{
    let (star, box_sort, a, product) = terms;
    let first = start(deriv, bank, star, box_sort)?;
    let over = primitive(deriv, bank, name, first)?;
    let type_of_a = typed(deriv, bank, a, star, over, alloc)?;
    let inner = weakened(deriv, bank, a, star, type_of_a)?;
    let formed = formed(deriv, bank, product, star, type_of_a, inner)?;
    Ok((type_of_a, inner, formed))
}

// The variable `x`, and `fun x : A . x`, and its application to the variable.
pub(crate) fn identity_terms(
    bank: &mut Bank,
    a: TermId,
) -> Result<(TermId, TermId, TermId), TermFault>
    requires { StandsFor bank.old a (tree.Const 0 tree.Nil) }
    ensures variable { IfOk result (λ ts. StandsFor bank.new ts.0 (tree.Var 0)) }
    ensures identity { IfOk result (λ ts. StandsFor bank.new ts.1 (tree.Lam (tree.Const 0 tree.Nil) (tree.Var 0))) }
    ensures applied { IfOk result (λ ts. StandsFor bank.new ts.2 (tree.App (tree.Lam (tree.Const 0 tree.Nil) (tree.Var 0)) (tree.Var 0))) }
    ensures kept { Extends bank.old bank.new }
{
    let x = bank.add(Node::Var(0))?;
    let identity = bank.add(Node::Lam(a, x))?;
    let applied = bank.add(Node::App(identity, x))?;
    Ok((x, identity, applied))
}

// `x : A` in the context of the variable, which is that of `inner`.
fn variable(
    deriv: &mut Deriv,
    bank: &Bank,
    x: TermId,
    a: TermId,
    j: JudgeId,
    inner: JudgeId,
) -> Result<JudgeId, NoMemory>
    requires sound { IsSound bank.now deriv.old }
    requires there { length (known_of bank.now deriv.old).env ≡ 1 }
    requires x { StandsFor bank.now x (tree.Var 0) }
    requires a { StandsFor bank.now a (tree.Const 0 tree.Nil) }
    requires typed { Knows (known_of bank.now deriv.old) j (record (over_first no_judgement 1) { term = tree.Const 0 tree.Nil; type = tree.Star }) }
    requires weakened { Knows (known_of bank.now deriv.old) inner
        (record (over_first no_judgement 1) { context = tree.Nil ▸ tree.Const 0 tree.Nil; term = tree.Const 0 tree.Nil; type = tree.Star }) }
    ensures number { IfOk result (λ k. Knows (known_of bank.now deriv.new) k
        (record (over_first no_judgement 1) { context = tree.Nil ▸ tree.Const 0 tree.Nil; term = tree.Var 0; type = tree.Const 0 tree.Nil })) }
    ensures adds { Adds (known_of bank.now deriv.old) (known_of bank.now deriv.new) }
    ensures sound { IsSound bank.now deriv.new }
{
    let ctx = deriv.judge(bank, inner).ctx;
    let judge = Judge {
        entries: 1,
        ctx,
        term: x,
        of: a,
    };
    deriv.emit(bank, judge, Step::Var(j))
}

// `fun x : A . x : A -> A`.
fn identity(
    deriv: &mut Deriv,
    bank: &Bank,
    term: TermId,
    product: TermId,
    body: JudgeId,
    formed: JudgeId,
) -> Result<JudgeId, NoMemory>
    requires sound { IsSound bank.now deriv.old }
    requires there { length (known_of bank.now deriv.old).env ≡ 1 }
    requires term { StandsFor bank.now term (tree.Lam (tree.Const 0 tree.Nil) (tree.Var 0)) }
    requires product { StandsFor bank.now product (tree.Pi (tree.Const 0 tree.Nil) (tree.Const 0 tree.Nil)) }
    requires body { Knows (known_of bank.now deriv.old) body
        (record (over_first no_judgement 1) { context = tree.Nil ▸ tree.Const 0 tree.Nil; term = tree.Var 0; type = tree.Const 0 tree.Nil }) }
    requires formed { Knows (known_of bank.now deriv.old) formed
        (record (over_first no_judgement 1) { term = tree.Pi (tree.Const 0 tree.Nil) (tree.Const 0 tree.Nil); type = tree.Star }) }
    ensures number { IfOk result (λ k. Knows (known_of bank.now deriv.new) k
        (record (over_first no_judgement 1) { term = tree.Lam (tree.Const 0 tree.Nil) (tree.Var 0); type = tree.Pi (tree.Const 0 tree.Nil) (tree.Const 0 tree.Nil) })) }
    ensures adds { Adds (known_of bank.now deriv.old) (known_of bank.now deriv.new) }
    ensures sound { IsSound bank.now deriv.new }
{
    let judge = Judge {
        entries: 1,
        ctx: deriv.empty(),
        term,
        of: product,
    };
    deriv.emit(bank, judge, Step::Abst(body, formed))
}

// The same in the context of the variable, which is that of `body`.
fn inner_identity(
    deriv: &mut Deriv,
    bank: &Bank,
    body: JudgeId,
    identity: JudgeId,
    typed: JudgeId,
) -> Result<JudgeId, NoMemory>
    requires sound { IsSound bank.now deriv.old }
    requires there { length (known_of bank.now deriv.old).env ≡ 1 }
    requires body { Knows (known_of bank.now deriv.old) body
        (record (over_first no_judgement 1) { context = tree.Nil ▸ tree.Const 0 tree.Nil; term = tree.Var 0; type = tree.Const 0 tree.Nil }) }
    requires identity { Knows (known_of bank.now deriv.old) identity
        (record (over_first no_judgement 1) { term = tree.Lam (tree.Const 0 tree.Nil) (tree.Var 0); type = tree.Pi (tree.Const 0 tree.Nil) (tree.Const 0 tree.Nil) }) }
    requires typed { Knows (known_of bank.now deriv.old) typed (record (over_first no_judgement 1) { term = tree.Const 0 tree.Nil; type = tree.Star }) }
    ensures number { IfOk result (λ k. Knows (known_of bank.now deriv.new) k
        (record (over_first no_judgement 1) { context = tree.Nil ▸ tree.Const 0 tree.Nil; term = tree.Lam (tree.Const 0 tree.Nil) (tree.Var 0); type = tree.Pi (tree.Const 0 tree.Nil) (tree.Const 0 tree.Nil) })) }
    ensures adds { Adds (known_of bank.now deriv.old) (known_of bank.now deriv.new) }
    ensures sound { IsSound bank.now deriv.new }
{
    let judge = Judge {
        ctx: deriv.judge(bank, body).ctx,
        ..deriv.judge(bank, identity)
    };
    deriv.emit(bank, judge, Step::Weak(identity, typed))
}

// `(fun x : A . x) x : A`.
fn applied(
    deriv: &mut Deriv,
    bank: &Bank,
    term: TermId,
    function: JudgeId,
    argument: JudgeId,
) -> Result<JudgeId, NoMemory>
    requires sound { IsSound bank.now deriv.old }
    requires there { length (known_of bank.now deriv.old).env ≡ 1 }
    requires term { StandsFor bank.now term (tree.App (tree.Lam (tree.Const 0 tree.Nil) (tree.Var 0)) (tree.Var 0)) }
    requires function { Knows (known_of bank.now deriv.old) function
        (record (over_first no_judgement 1) { context = tree.Nil ▸ tree.Const 0 tree.Nil; term = tree.Lam (tree.Const 0 tree.Nil) (tree.Var 0); type = tree.Pi (tree.Const 0 tree.Nil) (tree.Const 0 tree.Nil) }) }
    requires argument { Knows (known_of bank.now deriv.old) argument
        (record (over_first no_judgement 1) { context = tree.Nil ▸ tree.Const 0 tree.Nil; term = tree.Var 0; type = tree.Const 0 tree.Nil }) }
    ensures number { IfOk result (λ k. Knows (known_of bank.now deriv.new) k
        (record (over_first no_judgement 1) { context = tree.Nil ▸ tree.Const 0 tree.Nil; term = tree.App (tree.Lam (tree.Const 0 tree.Nil) (tree.Var 0)) (tree.Var 0); type = tree.Const 0 tree.Nil })) }
    ensures adds { Adds (known_of bank.now deriv.old) (known_of bank.now deriv.new) }
    ensures sound { IsSound bank.now deriv.new }
{
    let judge = Judge {
        term,
        ..deriv.judge(bank, argument)
    };
    deriv.emit(bank, judge, Step::Appl(function, argument))
}

// A flag of the product.
fn flagged(deriv: &mut Deriv, bank: &Bank, formed: JudgeId) -> Result<(), NoMemory>
    requires sound { IsSound bank.now deriv.old }
    requires there { length (known_of bank.now deriv.old).env ≡ 1 }
    requires formed { Knows (known_of bank.now deriv.old) formed
        (record (over_first no_judgement 1) { term = tree.Pi (tree.Const 0 tree.Nil) (tree.Const 0 tree.Nil); type = tree.Star }) }
{
    deriv.flag(bank, formed)
}

// The application in the context of the variable, and a flag of the product.
pub(crate) fn judged_application(
    deriv: &mut Deriv,
    bank: &Bank,
    a: TermId,
    product: TermId,
    terms: (TermId, TermId, TermId),
    judged: (JudgeId, JudgeId, JudgeId),
) -> Result<(), NoMemory>
    requires sound { IsSound bank.now deriv.old }
    requires judged { AreJudged (known_of bank.now deriv.old) judged.0 judged.1 judged.2 }
    requires a { StandsFor bank.now a (tree.Const 0 tree.Nil) }
    requires product { StandsFor bank.now product (tree.Pi (tree.Const 0 tree.Nil) (tree.Const 0 tree.Nil)) }
    requires variable { StandsFor bank.now terms.0 (tree.Var 0) }
    requires identity { StandsFor bank.now terms.1 (tree.Lam (tree.Const 0 tree.Nil) (tree.Var 0)) }
    requires applied { StandsFor bank.now terms.2 (tree.App (tree.Lam (tree.Const 0 tree.Nil) (tree.Var 0)) (tree.Var 0)) }
{
    let (x, term, application) = terms;
    let (type_of_a, inner, formed) = judged;
    let body = variable(deriv, bank, x, a, type_of_a, inner)?;
    let identity = identity(deriv, bank, term, product, body, formed)?;
    let function = inner_identity(deriv, bank, body, identity, type_of_a)?;
    applied(deriv, bank, application, function, body)?;
    flagged(deriv, bank, formed)
}
