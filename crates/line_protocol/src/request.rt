//! Requests, which are read where they lie.
ghost use Rattle.std.specs.Prelude.{◌≡◌, ◌∷◌, ◌++◌, IfNone, IfSome, IsTrue, Some, false, codes, length, take, option_map, position, ◌==◌};
ghost use Rattle.std.specs.Option.{option_copied};
ghost use Rattle.trace_types.specs.text.Name.{is_same};
ghost use Rattle.trace_types.specs.text.Reading.{request_of, words, number_of, is_digit, name_of, only, only_two, request_of_words, with_name, with_names, with_number};
ghost use Rattle.line_protocol.specs.Words.{Addresses, LeadingNumber, first_number, may_be_number, words_after};

use trace_types::{Name, Request};

/// The request that the line spells, or `None` if it spells none. The line is without its end. It takes no memory.
pub fn read_request(line: &[u8]) -> Option<Request>
    ensures { result ≡ request_of line.now }
{
    // The compiler zeroes all locals of a function on entry. What is asked most does without those of `read_other`.
    match line {
        b"count" => Some(Request::Count),
        [b'o', b'r', b'd', b'e', b'r', b' ', arguments @ ..] => {
            two_numbers(arguments).map(|(first, second)| Request::Order(first, second))
        }
        _ => read_other(line),
    }
}

/// Whether the line is `count`.
#[inline(always)]
pub fn is_count(line: &[u8]) -> bool
    ensures count { result ≡ is_same line.now (codes "count") }
    ensures spelled { IsTrue result → request_of line.now ≡ Some Request.Count }
{
    matches!(line, b"count")
}

/// The two events of an order, if the line spells one.
#[inline(always)]
pub fn read_order(line: &[u8]) -> Option<(u64, u64)>
    ensures { IfSome result (λ events. request_of line.now ≡ Some (Request.Order events.0 events.1)) }
{
    match line {
        [b'o', b'r', b'd', b'e', b'r', b' ', arguments @ ..] => two_numbers(arguments),
        _ => None,
    }
}

/// Any other request. The reports and questions that come most are told by how the line begins.
#[inline(never)]
fn read_other(line: &[u8]) -> Option<Request>
    requires count { is_same line.now (codes "count") ≡ false }
    requires order { is_same (take 6 line.now) (codes "order ") ≡ false }
    ensures { result ≡ request_of line.now }
{
    if let Some(arguments) = behind(line, b"local ") {
        return read_local(arguments);
    }
    if let Some(arguments) = behind(line, b"send ") {
        return read_send(arguments);
    }
    if let Some(arguments) = behind(line, b"recv ") {
        return read_recv(arguments);
    }
    if let Some(arguments) = behind(line, b"spawn ") {
        return read_spawn(arguments);
    }
    if let Some(arguments) = behind(line, b"join ") {
        return read_join(arguments);
    }
    if let Some(arguments) = behind(line, b"end ") {
        return read_end(arguments);
    }
    if let Some(arguments) = behind(line, b"event ") {
        return read_event(arguments);
    }
    if let Some(arguments) = behind(line, b"stamp ") {
        return read_stamp(arguments);
    }
    if let Some(arguments) = behind(line, b"task ") {
        return read_task(arguments);
    }
    if let Some(arguments) = behind(line, b"message ") {
        return read_message(arguments);
    }
    read_rare(line)
}

/// The bytes of the line behind the word, if it begins with it.
#[inline(always)]
fn behind<'a>(line: &'a [u8], word: &[u8]) -> Option<&'a [u8]>
    ensures some { IfSome result (λ rest. line.now ≡ word.now ++ rest.now) }
    ensures none { IfNone result (is_same (take (length word.now) line.now) word.now ≡ false) }
{
    let len = word.len();
    if len <= line.len() && is_word(&line[..len], word) {
        Some(&line[len..])
    } else {
        None
    }
}

/// The arguments of a local report.
#[inline(always)]
fn read_local(arguments: &[u8]) -> Option<Request>
    ensures { result ≡ with_name Request.Local (words arguments.now) }
{
    Some(Request::Local(only_name(arguments)?))
}

/// Any other request, by its keyword. The line begins with none of the words that [`read_other`] tells.
#[inline(always)]
fn read_rare(line: &[u8]) -> Option<Request>
    requires count { is_same line.now (codes "count") ≡ false }
    requires order { is_same (take 6 line.now) (codes "order ") ≡ false }
    requires local { is_same (take 6 line.now) (codes "local ") ≡ false }
    requires send { is_same (take 5 line.now) (codes "send ") ≡ false }
    requires recv { is_same (take 5 line.now) (codes "recv ") ≡ false }
    requires spawn { is_same (take 6 line.now) (codes "spawn ") ≡ false }
    requires join { is_same (take 5 line.now) (codes "join ") ≡ false }
    requires end { is_same (take 4 line.now) (codes "end ") ≡ false }
    requires event { is_same (take 6 line.now) (codes "event ") ≡ false }
    requires stamp { is_same (take 6 line.now) (codes "stamp ") ≡ false }
    requires task { is_same (take 5 line.now) (codes "task ") ≡ false }
    requires message { is_same (take 8 line.now) (codes "message ") ≡ false }
    ensures { result ≡ request_of line.now }
{
    match split_first(line) {
        (keyword, Some(arguments)) => read_arguments(keyword, arguments),
        (_, None) => None,
    }
}

/// The request of a keyword that has arguments, and is none of those that are told by how their lines begin.
fn read_arguments(keyword: &[u8], arguments: &[u8]) -> Option<Request>
    requires order { is_same keyword.now (codes "order") ≡ false }
    requires local { is_same keyword.now (codes "local") ≡ false }
    requires send { is_same keyword.now (codes "send") ≡ false }
    requires recv { is_same keyword.now (codes "recv") ≡ false }
    requires spawn { is_same keyword.now (codes "spawn") ≡ false }
    requires join { is_same keyword.now (codes "join") ≡ false }
    requires end { is_same keyword.now (codes "end") ≡ false }
    requires event { is_same keyword.now (codes "event") ≡ false }
    requires stamp { is_same keyword.now (codes "stamp") ≡ false }
    requires task { is_same keyword.now (codes "task") ≡ false }
    requires message { is_same keyword.now (codes "message") ≡ false }
    ensures { result ≡ request_of_words (keyword.now ∷ words arguments.now) }
{
    if is_word(keyword, b"past") {
        return Some(Request::Past(only_number(arguments)?));
    }
    if is_word(keyword, b"concurrent") {
        return Some(Request::Concurrent(only_number(arguments)?));
    }
    if is_word(keyword, b"cut") {
        return Some(Request::Cut(only_number(arguments)?));
    }
    None
}

/// The arguments of a spawn.
#[inline(always)]
fn read_spawn(arguments: &[u8]) -> Option<Request>
    ensures { result ≡ with_names Request.Spawn (words arguments.now) }
{
    two_names(arguments).map(|(task, child)| Request::Spawn(task, child))
}

/// The arguments of a send.
#[inline(always)]
fn read_send(arguments: &[u8]) -> Option<Request>
    ensures { result ≡ with_names Request.Send (words arguments.now) }
{
    two_names(arguments).map(|(task, message)| Request::Send(task, message))
}

/// The arguments of a receive.
#[inline(always)]
fn read_recv(arguments: &[u8]) -> Option<Request>
    ensures { result ≡ with_names Request.Recv (words arguments.now) }
{
    two_names(arguments).map(|(task, message)| Request::Recv(task, message))
}

/// The arguments of a join.
#[inline(always)]
fn read_join(arguments: &[u8]) -> Option<Request>
    ensures { result ≡ with_names Request.Join (words arguments.now) }
{
    two_names(arguments).map(|(task, child)| Request::Join(task, child))
}

/// The argument of an end.
#[inline(always)]
fn read_end(arguments: &[u8]) -> Option<Request>
    ensures { result ≡ with_name Request.End (words arguments.now) }
{
    Some(Request::End(only_name(arguments)?))
}

/// The argument of a question for an event.
#[inline(always)]
fn read_event(arguments: &[u8]) -> Option<Request>
    ensures { result ≡ with_number Request.Event (words arguments.now) }
{
    Some(Request::Event(only_number(arguments)?))
}

/// The argument of a question for a stamp.
#[inline(always)]
fn read_stamp(arguments: &[u8]) -> Option<Request>
    ensures { result ≡ with_number Request.Stamp (words arguments.now) }
{
    Some(Request::Stamp(only_number(arguments)?))
}

/// The argument of a question for a task.
#[inline(always)]
fn read_task(arguments: &[u8]) -> Option<Request>
    ensures { result ≡ with_name Request.Task (words arguments.now) }
{
    Some(Request::Task(only_name(arguments)?))
}

/// The argument of a question for a message.
#[inline(always)]
fn read_message(arguments: &[u8]) -> Option<Request>
    ensures { result ≡ with_name Request.Message (words arguments.now) }
{
    Some(Request::Message(only_name(arguments)?))
}

/// The word that the line begins with, and the request that the rest spells, or `None` if it spells none. The word may be
/// no name. It takes no memory.
#[inline(always)]
pub fn read_addressed(line: &[u8]) -> (&[u8], Option<Request>)
    ensures { Addresses line.now result.0.now result.1 }
{
    let (name, rest) = split_first(line);
    let request = match rest {
        Some(rest) => read_request(rest),
        None => None,
    };
    (name, request)
}

/// The name, if there is one argument and no more.
#[inline(always)]
fn only_name(arguments: &[u8]) -> Option<Name>
    ensures { result ≡ only name_of (words arguments.now) }
{
    match split_first(arguments) {
        (name, None) => Name::read(name),
        (_, Some(_)) => None,
    }
}

/// The two names, if there are two arguments and no more.
#[inline(always)]
fn two_names(arguments: &[u8]) -> Option<(Name, Name)>
    ensures { result ≡ only_two name_of (words arguments.now) }
{
    let (first, rest) = split_first(arguments);
    match split_first(rest?) {
        (second, None) => Some((Name::read(first)?, Name::read(second)?)),
        (_, Some(_)) => None,
    }
}

/// The number, if there is one argument and no more.
fn only_number(arguments: &[u8]) -> Option<u64>
    ensures { result ≡ only number_of (words arguments.now) }
{
    match first_number(arguments)? {
        (number, None) => Some(number),
        (_, Some(_)) => None,
    }
}

/// The two numbers, if there are two arguments and no more.
#[inline(always)]
fn two_numbers(arguments: &[u8]) -> Option<(u64, u64)>
    ensures { result ≡ only_two number_of (words arguments.now) }
{
    let (first, rest) = first_number(arguments)?;
    match first_number(rest?)? {
        (second, None) => Some((first, second)),
        (_, Some(_)) => None,
    }
}

/// The bytes before the first blank, and the bytes after it, if there is one.
#[inline(always)]
pub fn split_first(bytes: &[u8]) -> (&[u8], Option<&[u8]>)
    ensures { words bytes.now ≡ result.0.now ∷ words_after (option_copied result.1) }
{
    match first_blank(bytes) {
        Some(at) => (&bytes[..at], Some(&bytes[at + 1..])),
        None => (bytes, None),
    }
}

/// The place of the first blank in the bytes.
#[inline(always)]
fn first_blank(bytes: &[u8]) -> Option<usize>
    ensures { result ≡ position (λ byte. byte == 32) bytes.now }
{
    bytes.iter().position(|byte| *byte == b' ')
}

fn is_word(word: &[u8], other: &[u8]) -> bool
    ensures { result ≡ is_same word.now other.now }
{
    word == other
}

/// The number that the first word is, and the bytes behind its blank, if there is one.
#[inline(always)]
fn first_number(bytes: &[u8]) -> Option<(u64, Option<&[u8]>)>
    ensures { option_map (λ read. (read.0, words_after (option_copied read.1))) result ≡ first_number (words bytes.now) }
{
    let (number, len) = leading_number(bytes);
    if !may_be_number(&bytes[..len]) {
        return None;
    }
    match bytes.get(len) {
        None => Some((number, None)),
        Some(b' ') => Some((number, Some(&bytes[len + 1..]))),
        Some(_) => None,
    }
}

fn may_be_number(word: &[u8]) -> bool
    ensures { result ≡ may_be_number word.now }
{
    1 <= word.len() && word.len() <= 9 && (word.len() == 1 || word[0] != b'0')
}

/// The number that the first digits spell, and how many they are, at most nine.
#[inline(always)]
fn leading_number(bytes: &[u8]) -> (u64, usize)
    ensures { LeadingNumber bytes.now result.0 result.1 }
{
    let most = bytes.len().min(9);
    let mut number = 0;
    let mut len = 0;
    while len < most && is_digit(bytes[len]) {
        number = 10 * number + u64::from(bytes[len] - b'0');
        len += 1;
    }
    (number, len)
}

fn is_digit(byte: u8) -> bool
    ensures { result ≡ is_digit byte }
{
    matches!(byte, b'0'..=b'9')
}
