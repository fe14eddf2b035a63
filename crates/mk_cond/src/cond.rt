use mk_ast::Tree;
use mk_bytes::Items;

/// The functions of conditions.
#[derive(Clone, Copy, PartialEq, Eq)]
pub enum Fun {
    /// `defined`: some variable has the name.
    Defined,

    /// `make`: a requested target matches, or a main target where none is requested.
    Make,

    /// `empty`: the value of a variable with its modifiers is white space alone.
    Empty,

    /// `exists`: there is such a file.
    Exists,

    /// `target`: there is such a target.
    Target,

    /// `commands`: there is such a target, and it has commands.
    Commands,
}

/// How the two sides of a comparison stand to each other.
#[derive(Clone, Copy, PartialEq, Eq)]
pub enum CmpOp {
    /// `==`
    Equal,
    /// `!=`
    NotEqual,
    /// `<`
    Less,
    /// `<=`
    LessOrEqual,
    /// `>`
    Greater,
    /// `>=`
    GreaterOrEqual,
}

/// Where a condition stands. That decides what a bare word asks, and what may be a left side.
#[derive(Clone, Copy, PartialEq, Eq)]
pub enum Form {
    /// Behind `.if` or `.elif`: a word asks `defined`.
    If,

    /// Behind `.ifdef` or `.elifdef`: a word asks `defined`.
    Def,

    /// Behind `.ifndef` or `.elifndef`: a word asks `defined`, and its answer is turned round.
    Ndef,

    /// Behind `.ifmake` or `.elifmake`: a word asks `make`.
    Make,

    /// Behind `.ifnmake` or `.elifnmake`: a word asks `make`, and its answer is turned round.
    Nmake,

    /// The expanded name of the modifier `:?`: a word asks `defined`, but it is a left side where
    /// an operator follows.
    Inner,
}

/// A side of a comparison, or of a value that stands alone.
#[derive(Drop)]
pub struct Side {
    /// What is expanded to the side's value.
    pub text: Tree,

    /// Whether it stands in quotes.
    pub quoted: bool,
}

/// A condition. Parentheses leave no trace but the order in which it is evaluated.
#[derive(Drop)]
pub enum Cond {
    /// `||` between two or more conditions.
    Any(Conds),

    /// `&&` between two or more conditions.
    All(Conds),

    /// `!` before a condition, or a bare word of a form that turns its answer round.
    Not(Box<Cond>),

    /// A function and its argument. That of `Empty` is one reference with the name and modifiers.
    Test(Fun, Tree),

    /// A value that stands alone.
    Alone(Side),

    /// A comparison.
    Both(Side, CmpOp, Side),
}

/// Conditions in the order in which they are evaluated.
pub type Conds = Items<Cond>;
