//! What may come next in a JSON text (RFC 8259), byte by byte.
ghost use Rattle.std.specs.Prelude.{◌≡◌};
ghost use Rattle.wit_json_reading.specs.Syntax.{awaited, awaited_in_escape, awaited_in_number, begin_name, begin_value, begun, behind_value, code_digit, code_digit_behind_d, colon, comma_or, digit_or, end_value, ends_value, hex_digit, in_characters, in_escape, in_letters, in_number, in_string, in_word, is_c_or_more, is_whole_number, letter, may_end, next, next_escape, or_close, or_space, past_fraction, past_whole, string_ended, word_text};

/// What is open around a place: a list or an object.
#[derive(Clone, Copy)]
pub(crate) enum Bracket {
    List,
    Object,
}

/// What a string is: the name of a member, or a value.
#[derive(Clone, Copy)]
pub(crate) enum Role {
    Name,
    Value,
}

/// The words that are values.
#[derive(Clone, Copy)]
pub(crate) enum Word {
    True,
    False,
    Null,
}

/// What has come of a number.
#[derive(Clone, Copy)]
pub(crate) enum Number {
    /// Its sign.
    Minus,
    /// The whole part `0`.
    Zero,
    /// Digits of another whole part.
    Whole,
    /// The dot before the fraction.
    Dot,
    /// Digits of the fraction.
    Fraction,
    /// The `e` before the exponent.
    Mark,
    /// The exponent's sign.
    Sign,
    /// Digits of the exponent.
    Exponent,
}

/// What has come of an escape. The four digits behind `\u` may be half of a pair of surrogates: a first half has another `\u`
/// behind it, with a second half, which begins with `d` and `c` or a greater digit.
#[derive(Clone, Copy)]
pub(crate) enum Escape {
    /// The backslash.
    Backslash,
    /// `\u`.
    Code,
    /// `\ud`.
    CodeD,
    /// Digits of which so many are still to come.
    Three,
    Two,
    One,
    /// Digits of a first half of which so many are still to come.
    FirstHalfTwo,
    FirstHalfOne,
    /// A first half.
    FirstHalf,
    /// A first half and a backslash.
    SecondBackslash,
    /// A first half and `\u`.
    SecondCode,
    /// A first half and `\ud`.
    SecondCodeD,
}

/// Where in a string a place is.
#[derive(Clone, Copy)]
pub(crate) enum Inside {
    /// Between its characters.
    Characters,
    /// In an escape.
    Escape(Escape),
}

/// What the text before a place says of what may come there, beside the brackets that are open.
#[derive(Clone, Copy)]
pub(crate) enum State {
    /// A value comes.
    Value,
    /// A list has begun.
    ListBegun,
    /// An object has begun.
    ObjectBegun,
    /// A name comes.
    Name,
    /// A name has ended.
    NameEnded,
    /// A value has ended.
    ValueEnded,
    /// A string has begun.
    String(Role, Inside),
    /// A number has begun.
    Number(Number),
    /// So many letters of a word have come.
    Word(Word, usize),
}

/// What a byte does.
#[derive(Clone, Copy)]
pub(crate) enum Move {
    /// It leads to a state.
    To(State),
    /// It opens a list or an object.
    Open(Bracket),
    /// It closes the innermost list or object.
    Close,
    /// It can't stand there.
    Stop,
}

/// What may stand next in a JSON text.
#[derive(Clone, Copy, Debug, PartialEq, Eq)]
pub enum JsonPart {
    /// A value.
    Value,
    /// A value, or the end of the list that has begun.
    ValueOrListEnd,
    /// A name, or the end of the object that has begun.
    NameOrObjectEnd,
    /// The name of a member.
    Name,
    /// The colon between a name and its value.
    Colon,
    /// A comma, or the end of the list.
    CommaOrListEnd,
    /// A comma, or the end of the object.
    CommaOrObjectEnd,
    /// The end of the text.
    TextEnd,
    /// A character of a string, or its end.
    Character,
    /// What follows the backslash of an escape.
    Escape,
    /// A hexadecimal digit.
    HexDigit,
    /// A hexadecimal digit below `c`, since a second half of a pair of surrogates stands only behind a first one.
    HexDigitBelowC,
    /// The second half of a pair of surrogates.
    SecondHalf,
    /// A digit.
    Digit,
    /// A digit of the exponent, or its sign.
    DigitOrSign,
    /// The word `true`.
    True,
    /// The word `false`.
    False,
    /// The word `null`.
    Null,
}

/// What a byte does in a state, within the innermost bracket that is open.
pub(crate) fn next(state: State, around: Option<Bracket>, byte: u8) -> Move
    ensures { result ≡ next state around byte }
{
    match state {
        State::Value => or_space(state, byte, begin_value(byte)),
        State::ListBegun => or_space(state, byte, or_close(b']', byte, begin_value(byte))),
        State::ObjectBegun => or_space(state, byte, or_close(b'}', byte, begin_name(byte))),
        State::Name => or_space(state, byte, begin_name(byte)),
        State::NameEnded => or_space(state, byte, colon(byte)),
        State::ValueEnded => end_value(around, byte),
        State::String(role, Inside::Characters) => in_characters(role, byte),
        State::String(role, Inside::Escape(escape)) => in_string(role, in_escape(escape, byte)),
        State::Number(number) => in_number(number, around, byte),
        State::Word(word, count) => in_word(word, count, byte),
    }
}

/// Stays where it is at a space, or else makes another move.
fn or_space(state: State, byte: u8, other: Move) -> Move
    ensures { result ≡ or_space state byte other }
{
    if matches!(byte, b' ' | b'\t' | b'\n' | b'\r') {
        Move::To(state)
    } else {
        other
    }
}

/// Closes at a bracket, or else makes another move.
fn or_close(bracket: u8, byte: u8, other: Move) -> Move
    ensures { result ≡ or_close bracket byte other }
{
    if byte == bracket { Move::Close } else { other }
}

/// The first byte of a value.
#[tactic(auto, unfolding(crate::specs::Syntax::begin_value))]
fn begin_value(byte: u8) -> Move
    ensures { result ≡ begin_value byte }
{
    match byte {
        b'"' => Move::To(State::String(Role::Value, Inside::Characters)),
        b'[' => Move::Open(Bracket::List),
        b'{' => Move::Open(Bracket::Object),
        b'-' => Move::To(State::Number(Number::Minus)),
        b'0' => Move::To(State::Number(Number::Zero)),
        b't' => Move::To(State::Word(Word::True, 1)),
        b'f' => Move::To(State::Word(Word::False, 1)),
        b'n' => Move::To(State::Word(Word::Null, 1)),
        _ => digit_or(byte, Number::Whole, Move::Stop),
    }
}

/// The quote before a name.
fn begin_name(byte: u8) -> Move
    ensures { result ≡ begin_name byte }
{
    if byte == b'"' {
        Move::To(State::String(Role::Name, Inside::Characters))
    } else {
        Move::Stop
    }
}

/// The colon behind a name.
fn colon(byte: u8) -> Move
    ensures { result ≡ colon byte }
{
    if byte == b':' {
        Move::To(State::Value)
    } else {
        Move::Stop
    }
}

/// What follows a value: spaces, a comma, or the end of what holds it.
fn end_value(around: Option<Bracket>, byte: u8) -> Move
    ensures { result ≡ end_value around byte }
{
    let other = match around {
        None => Move::Stop,
        Some(Bracket::List) => comma_or(State::Value, byte, or_close(b']', byte, Move::Stop)),
        Some(Bracket::Object) => comma_or(State::Name, byte, or_close(b'}', byte, Move::Stop)),
    };
    or_space(State::ValueEnded, byte, other)
}

/// Goes to a state at a comma, or else makes another move.
fn comma_or(state: State, byte: u8, other: Move) -> Move
    ensures { result ≡ comma_or state byte other }
{
    if byte == b',' { Move::To(state) } else { other }
}

/// A byte between the characters of a string.
fn in_characters(role: Role, byte: u8) -> Move
    ensures { result ≡ in_characters role byte }
{
    if byte == b'"' {
        Move::To(string_ended(role))
    } else if byte == b'\\' {
        Move::To(State::String(role, Inside::Escape(Escape::Backslash)))
    } else if byte < b' ' {
        Move::Stop
    } else {
        Move::To(State::String(role, Inside::Characters))
    }
}

/// The state behind a string.
fn string_ended(role: Role) -> State
    ensures { result ≡ string_ended role }
{
    match role {
        Role::Name => State::NameEnded,
        Role::Value => State::ValueEnded,
    }
}

/// A place in a string, if the byte before it may stand there.
fn in_string(role: Role, inside: Option<Inside>) -> Move
    ensures { result ≡ in_string role inside }
{
    match inside {
        Some(inside) => Move::To(State::String(role, inside)),
        None => Move::Stop,
    }
}

/// A byte of an escape.
fn in_escape(escape: Escape, byte: u8) -> Option<Inside>
    ensures { result ≡ in_escape escape byte }
{
    match escape {
        Escape::Backslash => letter(byte),
        Escape::Code => code_digit(byte),
        Escape::CodeD => code_digit_behind_d(byte),
        Escape::Three => hex_digit(byte, Inside::Escape(Escape::Two)),
        Escape::Two => hex_digit(byte, Inside::Escape(Escape::One)),
        Escape::One => hex_digit(byte, Inside::Characters),
        Escape::FirstHalfTwo => hex_digit(byte, Inside::Escape(Escape::FirstHalfOne)),
        Escape::FirstHalfOne => hex_digit(byte, Inside::Escape(Escape::FirstHalf)),
        Escape::FirstHalf => next_escape(byte == b'\\', Escape::SecondBackslash),
        Escape::SecondBackslash => next_escape(byte == b'u', Escape::SecondCode),
        Escape::SecondCode => next_escape(byte == b'd' || byte == b'D', Escape::SecondCodeD),
        Escape::SecondCodeD => next_escape(is_c_or_more(byte), Escape::Two),
    }
}

/// What follows a backslash.
#[tactic(auto, unfolding(crate::specs::Syntax::letter))]
fn letter(byte: u8) -> Option<Inside>
    ensures { result ≡ letter byte }
{
    match byte {
        b'u' => Some(Inside::Escape(Escape::Code)),
        b'"' | b'\\' | b'/' | b'b' | b'f' | b'n' | b'r' | b't' => Some(Inside::Characters),
        _ => None,
    }
}

/// The first digit of a code.
fn code_digit(byte: u8) -> Option<Inside>
    ensures { result ≡ code_digit byte }
{
    if byte == b'd' || byte == b'D' {
        Some(Inside::Escape(Escape::CodeD))
    } else {
        hex_digit(byte, Inside::Escape(Escape::Three))
    }
}

/// The second digit of a code that begins with `d`: from 8 on it is that of a first half, from `c` on that of a second half.
fn code_digit_behind_d(byte: u8) -> Option<Inside>
    ensures { result ≡ code_digit_behind_d byte }
{
    if is_c_or_more(byte) {
        None
    } else if byte < b'8' {
        hex_digit(byte, Inside::Escape(Escape::Two))
    } else {
        hex_digit(byte, Inside::Escape(Escape::FirstHalfTwo))
    }
}

/// The place behind a hexadecimal digit.
fn hex_digit(byte: u8, inside: Inside) -> Option<Inside>
    ensures { result ≡ hex_digit byte inside }
{
    if byte.is_ascii_hexdigit() {
        Some(inside)
    } else {
        None
    }
}

/// Whether a byte is a hexadecimal digit from `c` on.
fn is_c_or_more(byte: u8) -> bool
    ensures { result ≡ is_c_or_more byte }
{
    matches!(byte, b'c'..=b'f' | b'C'..=b'F')
}

/// A place in an escape, where the byte before it may stand there.
fn next_escape(may: bool, escape: Escape) -> Option<Inside>
    ensures { result ≡ next_escape may escape }
{
    if may {
        Some(Inside::Escape(escape))
    } else {
        None
    }
}

/// A byte of a number, or behind it.
fn in_number(number: Number, around: Option<Bracket>, byte: u8) -> Move
    ensures { result ≡ in_number number around byte }
{
    match number {
        Number::Minus if byte == b'0' => Move::To(State::Number(Number::Zero)),
        Number::Minus => digit_or(byte, Number::Whole, Move::Stop),
        Number::Zero => past_whole(around, byte),
        Number::Whole => digit_or(byte, Number::Whole, past_whole(around, byte)),
        Number::Dot => digit_or(byte, Number::Fraction, Move::Stop),
        Number::Fraction => digit_or(byte, Number::Fraction, past_fraction(around, byte)),
        Number::Mark if byte == b'+' || byte == b'-' => Move::To(State::Number(Number::Sign)),
        Number::Mark | Number::Sign => digit_or(byte, Number::Exponent, Move::Stop),
        Number::Exponent => digit_or(byte, Number::Exponent, end_value(around, byte)),
    }
}

/// A digit of a number, or another move.
fn digit_or(byte: u8, number: Number, other: Move) -> Move
    ensures { result ≡ digit_or byte number other }
{
    if byte.is_ascii_digit() {
        Move::To(State::Number(number))
    } else {
        other
    }
}

/// What may follow the whole part of a number.
fn past_whole(around: Option<Bracket>, byte: u8) -> Move
    ensures { result ≡ past_whole around byte }
{
    if byte == b'.' {
        Move::To(State::Number(Number::Dot))
    } else {
        past_fraction(around, byte)
    }
}

/// What may follow the fraction of a number.
fn past_fraction(around: Option<Bracket>, byte: u8) -> Move
    ensures { result ≡ past_fraction around byte }
{
    if byte == b'e' || byte == b'E' {
        Move::To(State::Number(Number::Mark))
    } else {
        end_value(around, byte)
    }
}

/// A letter of a word of which so many have come.
fn in_word(word: Word, count: usize, byte: u8) -> Move
    ensures { result ≡ in_word word count byte }
{
    in_letters(word_text(word).as_bytes(), word, count, byte)
}

/// The same, by the letters of the word.
fn in_letters(letters: &[u8], word: Word, count: usize, byte: u8) -> Move
    ensures { result ≡ in_letters letters.now word count byte }
{
    if count >= letters.len() || letters[count] != byte {
        Move::Stop
    } else if count + 1 == letters.len() {
        Move::To(State::ValueEnded)
    } else {
        Move::To(State::Word(word, count + 1))
    }
}

/// The letters of a word.
fn word_text(word: Word) -> &'static str
    ensures { result.now ≡ word_text word }
{
    match word {
        Word::True => "true",
        Word::False => "false",
        Word::Null => "null",
    }
}

/// The state behind an opening bracket.
pub(crate) fn begun(bracket: Bracket) -> State
    ensures { result ≡ begun bracket }
{
    match bracket {
        Bracket::List => State::ListBegun,
        Bracket::Object => State::ObjectBegun,
    }
}

/// Whether a text may end in a state.
pub(crate) fn may_end(state: State, around: Option<Bracket>) -> bool
    ensures { result ≡ may_end state around }
{
    ends_value(state) && around.is_none()
}

/// Whether a value may end in a state.
fn ends_value(state: State) -> bool
    ensures { result ≡ ends_value state }
{
    match state {
        State::ValueEnded => true,
        State::Number(number) => is_whole_number(number),
        _ => false,
    }
}

/// Whether what has come of a number is one.
fn is_whole_number(number: Number) -> bool
    ensures { result ≡ is_whole_number number }
{
    match number {
        Number::Zero | Number::Whole | Number::Fraction | Number::Exponent => true,
        Number::Minus | Number::Dot | Number::Mark | Number::Sign => false,
    }
}

/// What may stand next in a state; more of a number, too, where one may end.
pub(crate) fn awaited(state: State, around: Option<Bracket>) -> JsonPart
    ensures { result ≡ awaited state around }
{
    match state {
        State::Value => JsonPart::Value,
        State::ListBegun => JsonPart::ValueOrListEnd,
        State::ObjectBegun => JsonPart::NameOrObjectEnd,
        State::Name => JsonPart::Name,
        State::NameEnded => JsonPart::Colon,
        State::ValueEnded => behind_value(around),
        State::String(_, Inside::Characters) => JsonPart::Character,
        State::String(_, Inside::Escape(escape)) => awaited_in_escape(escape),
        State::Number(number) => awaited_in_number(number, around),
        State::Word(Word::True, _) => JsonPart::True,
        State::Word(Word::False, _) => JsonPart::False,
        State::Word(Word::Null, _) => JsonPart::Null,
    }
}

/// What may stand behind a value.
fn behind_value(around: Option<Bracket>) -> JsonPart
    ensures { result ≡ behind_value around }
{
    match around {
        None => JsonPart::TextEnd,
        Some(Bracket::List) => JsonPart::CommaOrListEnd,
        Some(Bracket::Object) => JsonPart::CommaOrObjectEnd,
    }
}

/// What comes next of an escape.
fn awaited_in_escape(escape: Escape) -> JsonPart
    ensures { result ≡ awaited_in_escape escape }
{
    match escape {
        Escape::Backslash => JsonPart::Escape,
        Escape::Code | Escape::Three | Escape::Two | Escape::One => JsonPart::HexDigit,
        Escape::CodeD => JsonPart::HexDigitBelowC,
        Escape::FirstHalfTwo | Escape::FirstHalfOne => JsonPart::HexDigit,
        Escape::FirstHalf | Escape::SecondBackslash => JsonPart::SecondHalf,
        Escape::SecondCode | Escape::SecondCodeD => JsonPart::SecondHalf,
    }
}

/// What comes next of a number, or behind it.
fn awaited_in_number(number: Number, around: Option<Bracket>) -> JsonPart
    ensures { result ≡ awaited_in_number number around }
{
    match number {
        Number::Minus | Number::Dot | Number::Sign => JsonPart::Digit,
        Number::Mark => JsonPart::DigitOrSign,
        Number::Zero | Number::Whole | Number::Fraction | Number::Exponent => behind_value(around),
    }
}
