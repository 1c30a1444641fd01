//! What a derivation keeps.
ghost use Rattle.std.specs.Prelude.{◌≡◌};

use fb_base::Text;
use ld_terms::TermId;
use std::marker::Model;

/// The number of a judgement, counted from 0 in the order in which judgements were kept.
#[derive(Clone, Copy, Debug, PartialEq, Eq)]
pub struct JudgeId(pub(crate) usize);

/// The number of a context. The empty context has the number 0.
#[derive(Clone, Copy, Debug, PartialEq, Eq)]
pub struct CtxId(pub(crate) usize);

/// The number of an equality, counted from 0 in the order in which equalities were kept.
#[derive(Clone, Copy, Debug, PartialEq, Eq)]
pub struct EqId(pub(crate) usize);

/// Over the first of the entries, so many, and in a context, a term has a type.
#[derive(Clone, Copy, Debug)]
pub struct Judge {
    pub entries: u32,
    pub ctx: CtxId,
    pub term: TermId,
    pub of: TermId,
}

/// A list of judgements, as the premises for the arguments of an instance.
#[derive(Debug, Drop)]
pub struct Judges {
    judges: Vec<JudgeId>,
}

impl Model for Judges {
    ghost use Rattle.std.specs.Prelude.{List};
    ghost use Rattle.ld_record.specs.declared.record.JudgeId.{JudgeId};

    ghost Value = { List JudgeId };

    ghost view = { λ l. l.judges.items };
}

impl Judges {
    /// The list of the vector's judgements, in its memory.
    pub fn from_vec(items: Vec<JudgeId>) -> Judges
        ensures { result ≡ items.items }
    {
        Judges { judges: items }
    }

    /// The judgements, in their order.
    pub fn as_slice(&self) -> &[JudgeId]
        ensures { result.now ≡ self.now }
    {
        &self.judges
    }
}

/// A list of equalities, as the premises for the arguments of two instances.
#[derive(Debug, Drop)]
pub struct Eqs {
    eqs: Vec<EqId>,
}

impl Model for Eqs {
    ghost use Rattle.std.specs.Prelude.{List};
    ghost use Rattle.ld_record.specs.declared.record.EqId.{EqId};

    ghost Value = { List EqId };

    ghost view = { λ l. l.eqs.items };
}

impl Eqs {
    /// The list of the vector's equalities, in its memory.
    pub fn from_vec(items: Vec<EqId>) -> Eqs
        ensures { result ≡ items.items }
    {
        Eqs { eqs: items }
    }

    /// The equalities, in their order.
    pub fn as_slice(&self) -> &[EqId]
        ensures { result.now ≡ self.now }
    {
        &self.eqs
    }
}

/// A rule by which two terms are equal, with the equalities that are its premises.
#[derive(Debug, Drop)]
pub enum EqStep {
    Refl,
    Sym(EqId),
    Trans(EqId, EqId),
    /// An applied abstraction, and its body with the argument put in.
    Beta,
    /// An instance of an entry that has a body, and the body with the arguments put in.
    Delta,
    App(EqId, EqId),
    Lam(EqId, EqId),
    Pi(EqId, EqId),
    /// Instances of one entry, with an equality for each argument, in their order.
    Const(Eqs),
}

/// A rule with the judgements that are its premises, in the order of the rule table.
#[derive(Debug, Drop)]
pub enum Step {
    Sort,
    Var(JudgeId),
    Weak(JudgeId, JudgeId),
    Form(JudgeId, JudgeId),
    Appl(JudgeId, JudgeId),
    /// The body under the variable, and the product with its sort.
    Abst(JudgeId, JudgeId),
    /// The term with a type, the wanted type with its sort, and the equality of the first type and the second.
    Conv(JudgeId, JudgeId, EqId),
    Def(JudgeId),
    DefPrim(JudgeId),
    /// An instance of an entry that has a body: `* : box`, and a judgement of each argument, in their order.
    Inst(JudgeId, Judges),
    /// An instance of a primitive, likewise.
    InstPrim(JudgeId, Judges),
}

/// A record.
#[derive(Debug, Drop)]
pub enum Kept {
    /// A context extended by a term.
    Context(CtxId, TermId),
    /// Two terms that are equal by a rule.
    Equal(TermId, TermId, EqStep),
    Node(Judge, Step),
    /// An entry of a judgement, a primitive or not, under a name.
    Entry(Text, JudgeId, bool),
    /// A flag, whose type is the judgement's term in the judgement's context.
    Flag(JudgeId),
}

impl JudgeId {
    /// The number itself.
    pub fn number(&self) -> usize
        ensures { result ≡ self.now.0 }
    {
        self.0
    }
}

impl CtxId {
    /// The number itself.
    pub fn number(&self) -> usize
        ensures { result ≡ self.now.0 }
    {
        self.0
    }
}

impl EqId {
    /// The number itself.
    pub fn number(&self) -> usize
        ensures { result ≡ self.now.0 }
    {
        self.0
    }
}
