//! Kinds of characters, and how far a run of one kind goes.
ghost use Rattle.std.specs.Prelude.{◌≡◌, ◌≤◌, ◌-◌, length, take, drop, slice_index};
ghost use Rattle.std.specs.List.{prefix_len};
ghost use Rattle.aff_turtle.specs.Characters.{is_letter, is_digit, is_name, is_control, is_iri, is_blank, is_line_end, is_in, goes_on, jointed};

/// A kind of characters of which a token has a run.
#[derive(Clone, Copy, Debug, PartialEq, Eq)]
pub enum Class {
    /// Letters, digits, `-` and `_`.
    Name,
    /// Digits.
    Digit,
    /// What may stand inside `<` and `>`, and the backslash.
    Iri,
    /// Letters, digits, `+`, `-` and `.`.
    Scheme,
    /// Letters.
    Letter,
    /// Letters and digits.
    Tag,
    /// What a local part may have, and `%`, `:` and the backslash.
    Local,
    /// All but the line feed.
    Comment,
}

#[tactic(auto, unfolding(crate::specs::Characters::is_letter))]
pub fn is_letter(c: char) -> bool
    ensures { result ≡ is_letter c }
{
    c.is_ascii_alphabetic()
}

#[tactic(auto, unfolding(crate::specs::Characters::is_digit))]
pub fn is_digit(c: char) -> bool
    ensures { result ≡ is_digit c }
{
    '0' <= c && c <= '9'
}

#[tactic(auto, unfolding(crate::specs::Characters::is_name))]
fn is_name(c: char) -> bool
    ensures { result ≡ is_name c }
{
    is_letter(c) || is_digit(c) || c == '-' || c == '_'
}

#[tactic(auto, unfolding(crate::specs::Characters::is_control))]
fn is_control(c: char) -> bool
    ensures { result ≡ is_control c }
{
    c < ' ' || '\u{7f}' <= c && c <= '\u{9f}'
}

#[tactic(auto, unfolding(crate::specs::Characters::is_iri))]
fn is_iri(c: char) -> bool
    ensures { result ≡ is_iri c }
{
    !(is_control(c)
        || c == ' '
        || c == '"'
        || c == '<'
        || c == '>'
        || c == '^'
        || c == '`'
        || c == '{'
        || c == '|'
        || c == '}')
}

#[tactic(auto, unfolding(crate::specs::Characters::is_line_end))]
pub fn is_line_end(c: char) -> bool
    ensures { result ≡ is_line_end c }
{
    c == '\r' || c == '\n'
}

#[tactic(auto, unfolding(crate::specs::Characters::is_blank))]
pub fn is_blank(c: char) -> bool
    ensures { result ≡ is_blank c }
{
    c == ' ' || c == '\t' || is_line_end(c)
}

pub fn is_in(class: Class, c: char) -> bool
    ensures { result ≡ is_in class c }
{
    match class {
        Class::Name => is_name(c),
        Class::Digit => is_digit(c),
        Class::Iri => is_iri(c),
        Class::Scheme => is_letter(c) || is_digit(c) || c == '+' || c == '-' || c == '.',
        Class::Letter => is_letter(c),
        Class::Tag => is_letter(c) || is_digit(c),
        Class::Local => is_name(c) || c == '%' || c == ':' || c == '\\',
        Class::Comment => c != '\n',
    }
}

/// The character at a place, or the null character behind the end.
pub fn at(chars: &[char], place: usize) -> char
    ensures { result ≡ slice_index chars.now place }
{
    if place < chars.len() {
        chars[place]
    } else {
        '\0'
    }
}

/// What stands behind so many characters.
pub fn behind(chars: &[char], taken: usize) -> &[char]
    ensures value { result.now ≡ drop taken chars.now }
    ensures len { length result.now ≡ length chars.now - taken }
{
    if taken <= chars.len() {
        chars.split_at(taken).1
    } else {
        &[]
    }
}

/// So many characters from the front on, or all where there are fewer.
pub fn front(chars: &[char], taken: usize) -> &[char]
    ensures { result.now ≡ take taken chars.now }
{
    if taken <= chars.len() {
        chars.split_at(taken).0
    } else {
        chars
    }
}

/// How many characters from the front on are of a class.
#[tactic(auto, using(crate::proofs::Runs::runs))]
pub fn run(class: Class, chars: &[char]) -> usize
    ensures value { result ≡ prefix_len (is_in class) chars.now }
    ensures inside { result ≤ length chars.now }
{
    for (place, c) in chars.iter().enumerate() {
        if !is_in(class, *c) {
            return place;
        }
    }
    chars.len()
}

fn goes_on(class: Class, joint: char, next: Class, c: char, follows: char) -> bool
    ensures { result ≡ goes_on class joint next c follows }
{
    is_in(class, c) || c == joint && is_in(next, follows)
}

/// How many characters from the front on are of a class, or a joint with one of the next class behind it.
pub fn jointed(class: Class, joint: char, next: Class, chars: &[char]) -> usize
    ensures value { result ≡ jointed class joint next chars.now }
    ensures inside { result ≤ length chars.now }
{
    for (place, c) in chars.iter().enumerate() {
        let follows = at(chars, place + 1);
        if !goes_on(class, joint, next, *c, follows) {
            return place;
        }
    }
    chars.len()
}
