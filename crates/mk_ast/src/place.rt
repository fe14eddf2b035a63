//! Where a text stands in a reference: that decides where it ends, and which backslashes in it are
//! escapes.
ghost use Rattle.std.specs.Prelude.{◌≡◌, ◌+◌, ◌^◌, ◌<◌, ◌≤◌, true, false, length};
ghost use Rattle.mk_ast.specs.Spell as spell;
ghost use Rattle.mk_ast.specs.Places as spec;
ghost use Rattle.mk_ast.specs.declared.place.Piece.TheVariants as piece;

/// The texts that a condition is made of.
#[derive(Clone, Copy)]
pub enum Piece {
    /// An unquoted word, up to a blank or a sign of conditions: one of `)`, `&`, `|`, `=`, `!`, `<`
    /// and `>`.
    Word,

    /// A quoted text, behind its first quote. A backslash escapes the next byte.
    Quoted,

    /// The argument of a function, up to its closing parenthesis.
    Argument,
}

/// The places that a text can stand in.
#[derive(Clone, Copy)]
pub enum Place {
    /// A whole text.
    Whole,

    /// The name of a reference, inside so many nested openers.
    Name { round: bool, nested: usize },

    /// The pattern of `:M` and `:N`.
    Pattern { round: bool },

    /// The old text of `:S`; `leading` at its first byte.
    From { delim: u8, leading: bool },

    /// The new text of `:S`.
    To { delim: u8 },

    /// Between the brackets of `:[ ]`.
    Select,

    /// The count of `:range=`.
    Count { round: bool },

    /// The text of `:U` and `:D`.
    Value { round: bool },

    /// The first text of `:?`.
    IfTrue { round: bool },

    /// The second text of `:?`.
    IfFalse { round: bool },

    /// The body of `:@`.
    Body,

    /// What stands before the `=` of `:old=new`.
    Old { round: bool },

    /// What stands after the `=` of `:old=new`.
    New { round: bool },

    /// In a condition.
    Piece(Piece),
}

/// What begins a reference after its `$`.
pub fn opener(round: bool) -> u8
    ensures { result ≡ spell.opener round }
{
    if round { b'(' } else { b'{' }
}

/// What ends a reference.
pub fn closer(round: bool) -> u8
    ensures { result ≡ spell.closer round }
{
    if round { b')' } else { b'}' }
}

/// Whether a byte ends a modifier.
pub fn ends_modifier(round: bool, byte: u8) -> bool
    ensures { result ≡ spec.ends_modifier round byte }
{
    byte == b':' || byte == closer(round)
}

// Whether a byte ends a word of a condition.
fn ends_word(byte: u8) -> bool
    ensures { result ≡ spec.ends_piece piece.Word byte }
{
    byte == b' '
        || byte == b'\t'
        || byte == b')'
        || byte == b'&'
        || byte == b'|'
        || byte == b'='
        || byte == b'!'
        || byte == b'<'
        || byte == b'>'
}

fn ends_piece(piece: Piece, byte: u8) -> bool
    ensures { result ≡ spec.ends_piece piece byte }
{
    match piece {
        Piece::Word => ends_word(byte),
        Piece::Quoted => byte == b'"',
        Piece::Argument => byte == b')',
    }
}

#[inline(always)]
fn ends(place: Place, byte: u8) -> bool
    ensures { result ≡ spec.ends place byte }
{
    match place {
        Place::Whole => false,
        Place::Name { round, nested } => nested == 0 && ends_modifier(round, byte),
        Place::Pattern { round } => ends_modifier(round, byte),
        Place::From { delim, leading: _ } => byte == delim,
        Place::To { delim } => byte == delim,
        Place::Select => byte == b']',
        Place::Count { round } => ends_modifier(round, byte),
        Place::Value { round } => ends_modifier(round, byte),
        Place::IfTrue { round: _ } => byte == b':',
        Place::IfFalse { round } => byte == closer(round),
        Place::Body => byte == b'@',
        Place::Old { round } => byte == b'=' || byte == closer(round),
        Place::New { round } => byte == closer(round),
        Place::Piece(piece) => ends_piece(piece, byte),
    }
}

/// Whether nothing of the text at this place is left.
#[inline(always)]
pub fn is_over(place: Place, text: &[u8]) -> bool
    ensures same { result ≡ spec.is_over place text.now }
    ensures some { result ≡ false → 0 < length text.now }
{
    match text {
        [] => true,
        [first, ..] => ends(place, *first),
    }
}

fn in_value(round: bool, byte: u8) -> bool
    ensures { result ≡ spec.in_value round byte }
{
    byte == b':' || byte == closer(round) || byte == b'$' || byte == b'\\'
}

fn in_subst(delim: u8, byte: u8) -> bool
    ensures { result ≡ spec.in_subst delim byte }
{
    byte == delim || byte == b'\\' || byte == b'$' || byte == b'&'
}

#[inline(always)]
fn escapes(place: Place, byte: u8) -> bool
    ensures { result ≡ spec.escapes place byte }
{
    match place {
        Place::Pattern { round: _ } => byte == b':',
        Place::From { delim, leading } => in_subst(delim, byte) || (leading && byte == b'^'),
        Place::To { delim } => in_subst(delim, byte),
        Place::Value { round } => in_value(round, byte),
        Place::IfTrue { round } => in_value(round, byte),
        Place::IfFalse { round } => in_value(round, byte),
        Place::Old { round } => in_value(round, byte) || byte == b'=',
        Place::New { round } => in_value(round, byte) || byte == b'=',
        Place::Piece(piece) => matches!(piece, Piece::Quoted),
        Place::Whole
        | Place::Name {
            round: _,
            nested: _,
        }
        | Place::Select
        | Place::Count { round: _ }
        | Place::Body => false,
    }
}

/// Whether a byte before a text is the backslash of an escape.
#[inline(always)]
pub fn is_escape(place: Place, byte: u8, text: &[u8]) -> bool
    ensures same { result ≡ spec.is_escape place byte text.now }
    ensures some { result ≡ true → 0 < length text.now }
{
    match text {
        [] => false,
        [next, ..] => byte == b'\\' && escapes(place, *next),
    }
}

/// Whether a `$` before a byte is the anchor at the end of an old text.
pub fn is_anchor(place: Place, byte: u8) -> bool
    ensures { result ≡ spec.is_anchor place byte }
{
    match place {
        Place::From { delim, leading: _ } => byte == delim,
        _ => false,
    }
}

/// The place after a byte.
#[inline(always)]
pub fn after(place: Place, byte: u8) -> Place
    requires { spec.nesting place + 1 < 2 ^ 64 }
    ensures same { result ≡ spec.after place byte }
    ensures nesting { spec.nesting result ≤ spec.nesting place + 1 }
{
    match place {
        Place::Name { round, nested } => {
            if byte == opener(round) {
                let nested = nested + 1;
                return Place::Name { round, nested };
            }
            if byte == closer(round) {
                let nested = nested.saturating_sub(1);
                return Place::Name { round, nested };
            }
            place
        }
        Place::From { delim, leading: _ } => Place::From {
            delim,
            leading: false,
        },
        _ => place,
    }
}
