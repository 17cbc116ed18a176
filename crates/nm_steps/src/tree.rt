//! A JSON text as a tree that borrows its strings.

ghost use Rattle.std.specs.Prelude.{ℕ, List, ◌≡◌, ◌<◌, ◌≤◌, ◌==◌, ◌∷◌, [], length, map, slice_index, true, false, Some, is_some, option_map, option_and_then, IsTrue, IfOk, OnOk, IfErr, IfSome, IfNone};
ghost use Rattle.std.specs.Str.Parse.{IsNumeral};
ghost use Rattle.fast_float.specs.Text.{minus};
ghost use Rattle.json.specs.Json.{value, members};
ghost use Rattle.json.specs.Reads.{opens, token_of};
ghost use Rattle.json.specs.Token.{number as number_token};
ghost use Rattle.json.specs.Scratch.{room};
ghost use Rattle.serde_json.specs.Data.{unsigned, number as number_data, array, no_members};
ghost use Rattle.serde_json.specs.Find.{get, get_member, as_number, as_u64, as_bool, as_str, as_array};
ghost use Rattle.serde_json.specs.Read.{number_of, number_from, of_json, of_members, converted, read};
ghost use Rattle.nm_steps.specs.Lists.{whole, list_seen};
ghost use Rattle.nm_steps.specs.Tree.{view, list_after, items_view, members_view};
ghost use Rattle.nm_steps.specs.Gives.{GivesStep};
ghost use Rattle.nm_steps.specs.Memory.{NeedsMemory};
ghost use Rattle.nm_steps.specs.declared.step_error.StepError.TheVariants.{Bad, Memory};

use crate::json_value::{JsonList, JsonValue};
use crate::step_error::StepError;
use fast_float::Numeral;
use json::{Reader, Scratch, Token};
use std::alloc::Global;

/// How deep lists and objects may nest.
const MAX_DEPTH: usize = 127;

/// Every number of at most this many digits is below 2^64.
const SHORT_DIGITS: usize = 19;

/// A JSON value whose texts are borrowed. Its numbers are in the range of a double.
#[derive(Drop)]
pub enum Tree<'a> {
    /// Null.
    Null,
    /// True or false.
    Bool(bool),
    /// A whole number below 2^64.
    Whole(u64),
    /// Any other number, as it is written.
    Number(&'a str),
    /// A string.
    Text(&'a str),
    /// A list of numbers of one to 19 digits, or of nothing.
    Numbers(Vec<u64>),
    /// A list with any other item.
    List(Vec<Tree<'a>>),
    /// An object: its keys and values in order. Of a key that occurs twice, the last value counts.
    Object(Vec<(&'a str, Tree<'a>)>),
}

/// Whether a JSON number begins with a minus sign.
fn is_negative(number: &str) -> bool
    ensures value { result ≡ (slice_index number.now 0 == minus) }
    ensures some { IsTrue result → 0 < length number.now }
{
    let bytes = number.as_bytes();
    !bytes.is_empty() && bytes[0] == b'-'
}

/// The number that one to 19 digits write. None if there are no bytes, more than 19, or any that is not a digit.
fn short_of(bytes: &[u8]) -> Option<u64>
    ensures value { IfSome result (λ n. number_of bytes.now ≡ Some (unsigned n)) }
    ensures other { IfNone result (IsNumeral 10 bytes.now → 19 < length bytes.now) }
{
    if bytes.is_empty() || bytes.len() > SHORT_DIGITS {
        return None;
    }
    let mut number = 0;
    for byte in bytes {
        let digit = byte.wrapping_sub(b'0');
        if digit > 9 {
            return None;
        }
        number = number * 10 + u64::from(digit);
    }
    Some(number)
}

/// The whole number below 2^64 that a JSON number gives, without point and exponent.
fn whole_of(number: &str) -> Option<u64>
    ensures { result ≡ option_and_then as_u64 (number_of number.now) }
{
    let bytes = number.as_bytes();
    if let Some(short) = short_of(bytes) {
        return Some(short);
    }
    if is_negative(number) {
        None
    } else {
        whole_from(&Numeral::scan(bytes))
    }
}

/// The whole number below 2^64 that digits without a sign give.
fn whole_from(numeral: &Numeral<'_>) -> Option<u64>
    ensures { result ≡ option_and_then as_u64 (number_from false numeral.now) }
{
    numeral.to_u64()
}

/// Whether a number after a minus sign is in range.
fn is_in_range_below_zero(numeral: &Numeral<'_>) -> bool
    ensures { result ≡ is_some (number_from true numeral.now) }
{
    if let Some(number) = numeral.to_i64(true) {
        if number < 0 {
            return true;
        }
    }
    numeral.to_float::<f64>(true).is_finite()
}

/// Whether a number without a sign is in range.
fn is_in_range_above_zero(numeral: &Numeral<'_>) -> bool
    ensures { result ≡ is_some (number_from false numeral.now) }
{
    numeral.to_u64().is_some() || numeral.to_float::<f64>(false).is_finite()
}

/// Whether a JSON number is in range: a whole number of 64 bits, or one that rounds to a finite double.
fn is_in_range(number: &str) -> bool
    ensures { result ≡ is_some (number_of number.now) }
{
    let bytes = number.as_bytes();
    if short_of(bytes).is_some() {
        true
    } else if is_negative(number) {
        is_in_range_below_zero(&Numeral::scan(&bytes[1..]))
    } else {
        is_in_range_above_zero(&Numeral::scan(bytes))
    }
}

/// The tree of a number.
#[inline(always)]
fn number_tree<'a>(text: &'a str) -> Result<Tree<'a>, StepError>
    ensures value { GivesStep view result (option_map number_data (number_of text.now)) }
    ensures bad { IfErr result (λ e. e ≡ Bad) }
{
    if let Some(whole) = whole_of(text) {
        Ok(Tree::Whole(whole))
    } else if is_in_range(text) {
        Ok(Tree::Number(text))
    } else {
        Err(StepError::Bad)
    }
}

/// The next value of a reader. Lists and objects may nest `depth` deep.
#[cycle(read)]
#[inline(always)]
fn read_value<'a>(
    heap: Global,
    reader: &mut Reader<'a>,
    depth: usize,
) -> Result<Tree<'a>, StepError>
    ensures value { GivesStep (λ t. (view t, reader.new)) result
        (converted of_json (value depth reader.old)) }
    ensures left { OnOk result (length reader.new < length reader.old) }
    ensures allocates { result ≡ Err Memory → IsTrue (opens reader.old) }
{
    let token = reader.next().ok_or(StepError::Bad)?;
    read_from(heap, token, reader, depth)
}

/// The value that begins with this token, which the reader has passed. Lists and objects may nest `depth` deep.
#[cycle(read)]
#[inline(always)]
fn read_from<'a>(
    heap: Global,
    token: Token<'a>,
    reader: &mut Reader<'a>,
    depth: usize,
) -> Result<Tree<'a>, StepError>
    ensures value { GivesStep (λ t. (view t, reader.new)) result
        (converted of_json (value depth (token_of token.entry ∷ reader.old))) }
    ensures left { OnOk result (length reader.new ≤ length reader.old) }
    ensures allocates { result ≡ Err Memory → IsTrue (opens (token_of token.entry ∷ reader.old)) }
{
    match token {
        Token::String(text) => Ok(Tree::Text(text)),
        Token::Number(text) => number_tree(text),
        Token::Bool(b) => Ok(Tree::Bool(b)),
        Token::Null => Ok(Tree::Null),
        Token::EndObject | Token::EndArray | Token::Key(_) | Token::Bad => Err(StepError::Bad),
        Token::BeginArray => {
            if depth == 0 {
                return Err(StepError::Bad);
            }
            read_list(heap, reader, depth - 1)
        }
        Token::BeginObject => {
            if depth == 0 {
                return Err(StepError::Bad);
            }
            Ok(Tree::Object(read_members(heap, reader, depth - 1)?))
        }
    }
}

/// The whole number below 2^64 that a token is, if it is one.
#[inline(always)]
fn whole_at(token: &Token<'_>) -> Option<u64>
    ensures { IfSome result (λ n. (text : List ℕ)
        × (token_of token.now ≡ number_token text) × (number_of text ≡ Some (unsigned n))) }
{
    match token {
        Token::Number(text) => short_of(text.as_bytes()),
        _ => None,
    }
}

/// The trees of numbers.
fn trees_of<'a>(heap: Global, numbers: &[u64]) -> Result<Vec<Tree<'a>>, StepError>
    ensures trees { IfOk result (λ v. map view v.items ≡ map whole numbers.now) }
    ensures memory { IfErr result (λ e. e ≡ Memory) }
{
    let mut trees = Vec::new(heap);
    for number in numbers {
        trees.push(Tree::Whole(*number))?;
    }
    Ok(trees)
}

/// A list, after its opening bracket.
#[cycle(read)]
#[inline(never)]
fn read_list<'a>(heap: Global, reader: &mut Reader<'a>, depth: usize) -> Result<Tree<'a>, StepError>
    ensures value { GivesStep (λ t. (view t, reader.new)) result
        (list_after depth (length reader.old) [] reader.old) }
    ensures left { OnOk result (length reader.new < length reader.old) }
{
    let mut numbers = Vec::new(heap);
    loop {
        let token = reader.next().ok_or(StepError::Bad)?;
        if let Some(number) = whole_at(&token) {
            numbers.push(number)?;
        } else {
            return read_rest(heap, numbers, token, reader, depth);
        }
    }
}

/// A list that begins with these numbers, and goes on with this token.
#[cycle(read)]
#[inline(always)]
fn read_rest<'a>(
    heap: Global,
    numbers: Vec<u64>,
    token: Token<'a>,
    reader: &mut Reader<'a>,
    depth: usize,
) -> Result<Tree<'a>, StepError>
    ensures value { GivesStep (λ t. (view t, reader.new)) result
        (list_after depth (length (token_of token.entry ∷ reader.old)) (map whole numbers.items) (token_of token.entry ∷ reader.old)) }
    ensures left { OnOk result (length reader.new ≤ length reader.old) }
{
    if let Token::EndArray = token {
        return Ok(Tree::Numbers(numbers));
    }
    let item = read_from(heap, token, reader, depth)?;
    let mut trees = trees_of(heap, numbers.as_slice())?;
    trees.push(item)?;
    let items = read_items(heap, reader, depth, trees)?;
    Ok(Tree::List(items))
}

/// The items of a list, after those that were read.
#[cycle(read)]
#[inline(never)]
fn read_items<'a>(
    heap: Global,
    reader: &mut Reader<'a>,
    depth: usize,
    before: Vec<Tree<'a>>,
) -> Result<Vec<Tree<'a>>, StepError>
    ensures value { (n : ℕ) → length reader.old ≤ n →
        GivesStep (λ v. (array (items_view v.items), reader.new)) result
        (list_after depth n (map view before.entry.items) reader.old) }
    ensures left { OnOk result (length reader.new < length reader.old) }
{
    let mut found = before;
    while !reader.take_end_array() {
        let item = read_value(heap, reader, depth)?;
        found.push(item)?;
    }
    Ok(found)
}

/// The members of an object, after its opening bracket.
#[cycle(read)]
#[inline(never)]
fn read_members<'a>(
    heap: Global,
    reader: &mut Reader<'a>,
    depth: usize,
) -> Result<Vec<(&'a str, Tree<'a>)>, StepError>
    ensures value { GivesStep (λ v. (members_view v.items, reader.new)) result
        (converted (λ ms. of_members ms no_members)
        (members (value depth) (length reader.old) reader.old)) }
    ensures left { OnOk result (length reader.new < length reader.old) }
{
    let mut found = Vec::new(heap);
    while let Some(key) = reader.next_key()? {
        let member = read_value(heap, reader, depth)?;
        found.push((key, member))?;
    }
    Ok(found)
}

/// The tree of a text. `Bad` if the text is not JSON: lists and objects may nest at most 127 deep, and each number must
/// be in the range of a double. Strings with escapes are written to `scratch`.
pub(crate) fn read<'a>(
    heap: Global,
    text: &'a str,
    scratch: &'a mut Scratch,
) -> Result<Tree<'a>, StepError>
    ensures value { GivesStep view result (read text.now) }
    ensures allocates { result ≡ Err Memory → NeedsMemory (room scratch.old) text.now }
{
    let mut reader = Reader::new(text, scratch)?;
    let value = read_value(heap, &mut reader, MAX_DEPTH)?;
    if reader.next().is_some() {
        return Err(StepError::Bad);
    }
    Ok(value)
}

/// The last value at a key.
fn find<'v, 'a>(members: &'v [(&'a str, Tree<'a>)], key: &str) -> Option<&'v Tree<'a>>
    ensures { option_map (λ v. view v.now) result
        ≡ get_member key.now (members_view members.now) }
{
    let mut left = members.len();
    while left > 0 {
        left -= 1;
        let member = &members[left];
        if member.0 == key {
            return Some(&member.1);
        }
    }
    None
}

/// The value at a key, the last one if the key occurs twice. None if the key is missing, or this is not an object.
fn get<'v, 'a>(tree: &'v Tree<'a>, key: &str) -> Option<&'v Tree<'a>>
    ensures { option_map (λ v. view v.now) result ≡ get key.now (view tree.now) }
{
    match tree {
        Tree::Object(members) => find(members.as_slice(), key),
        _ => None,
    }
}

/// A whole number below 2^64, written without point and exponent, or None if this is not one.
fn as_u64(tree: &Tree<'_>) -> Option<u64>
    ensures { result ≡ option_and_then as_u64 (as_number (view tree.now)) }
{
    match tree {
        Tree::Whole(number) => Some(*number),
        Tree::Number(text) => whole_of(text),
        _ => None,
    }
}

/// A string, or None if this is not a string.
fn as_str<'a>(tree: &Tree<'a>) -> Option<&'a str>
    ensures { option_map (λ s. s.now) result ≡ as_str (view tree.now) }
{
    match tree {
        Tree::Text(text) => Some(*text),
        _ => None,
    }
}

/// The items of a list, or None if this is not a list.
fn as_list<'v, 'a>(tree: &'v Tree<'a>) -> Option<JsonList<'v, Tree<'a>>>
    ensures { option_map (list_seen view) result ≡ as_array (view tree.now) }
{
    match tree {
        Tree::Numbers(numbers) => Some(JsonList::Numbers(numbers.as_slice())),
        Tree::List(items) => Some(JsonList::Values(items.as_slice())),
        _ => None,
    }
}

/// True or false, or None if this is neither.
fn as_bool(tree: &Tree<'_>) -> Option<bool>
    ensures { result ≡ as_bool (view tree.now) }
{
    match tree {
        Tree::Bool(flag) => Some(*flag),
        _ => None,
    }
}

impl<'a> JsonValue for Tree<'a> {
    ghost as_data = { view };

    fn get(&self, key: &str) -> Option<&Tree<'a>> {
        get(self, key)
    }

    fn as_u64(&self) -> Option<u64> {
        as_u64(self)
    }

    fn as_str(&self) -> Option<&str> {
        as_str(self)
    }

    fn as_list(&self) -> Option<JsonList<'_, Tree<'a>>> {
        as_list(self)
    }

    fn as_bool(&self) -> Option<bool> {
        as_bool(self)
    }
}
