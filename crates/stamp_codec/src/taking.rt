//! Taking of bytes from the front of a text.
ghost use Rattle.std.specs.Prelude.{◌≡◌, ◌≢◌, ℕ, ◌<◌, ◌≤◌, false, List, [], ◌∷◌, ◌++◌, decimal, IfErr, IfNone, IfOk, IfSome, MatchBool, MatchOption};
ghost use Rattle.stamp_codec.specs.Faults.{greatest_sum};
ghost use Rattle.stamp_codec.specs.Looks.{EndsDigits};
ghost use Rattle.stamp_codec.specs.Refused.{NoNumber};
ghost use Rattle.stamp_codec.specs.Scan.{is_digit_byte};
ghost use Rattle.stamp_codec.specs.declared.one_pass.Unread.TheVariants.{Refused};

use crate::one_pass::Unread;

/// Takes a number and this byte behind it. The number is at most `most`.
#[inline(always)]
#[tactic(auto, using(crate::proofs::AtOnce::one_digit))]
pub fn take_number(rest: &mut &[u8], end: u8, most: u64) -> Result<u64, Unread>
    requires most { most ≤ greatest_sum }
    requires end { is_digit_byte end ≡ false }
    ensures text { IfOk result (λ number. rest.old.now ≡ (decimal number ++ end ∷ []) ++ rest.new.now) }
    ensures small { IfOk result (λ number. number ≤ most) }
    ensures refused { IfErr result (λ unread. (unread ≡ Refused) × NoNumber most end rest.old.now) }
{
    // Most numbers of a stamp have one digit.
    match take_digit(rest, end) {
        Some(digit) => number_within(u64::from(digit - b'0'), most),
        None => take_digits(rest, end, most),
    }
}

/// Takes a number of two digits or more and this byte behind it.
#[inline(never)]
#[tactic(auto, using(crate::proofs::AtOnce::one_digit, crate::proofs::AtOnce::more_behind))]
fn take_digits(rest: &mut &[u8], end: u8, most: u64) -> Result<u64, Unread>
    requires most { most ≤ greatest_sum }
    requires end { is_digit_byte end ≡ false }
    ensures text { IfOk result (λ number. rest.old.now ≡ (decimal number ++ end ∷ []) ++ rest.new.now) }
    ensures small { IfOk result (λ number. number ≤ most) }
    ensures refused { IfErr result (λ unread. (unread ≡ Refused) × ((n : ℕ) (behind : List ℕ) → 10 ≤ n → n ≤ most → rest.old.now ≢ decimal n ++ (end ∷ behind))) }
{
    let mut behind = *rest;
    let Some(first) = next_digit(&mut behind) else {
        return Err(Unread::Refused);
    };
    if first == b'0' {
        return Err(Unread::Refused);
    }
    let mut number = u64::from(first - b'0');
    while let Some(digit) = next_digit(&mut behind) {
        if number > most / 10 {
            return Err(Unread::Refused);
        }
        number = number * 10 + u64::from(digit - b'0');
    }
    take_byte(&mut behind, end)?;
    *rest = behind;
    number_within(number, most)
}

/// The number, if it is at most `most`.
fn number_within(number: u64, most: u64) -> Result<u64, Unread>
    ensures within { IfOk result (λ same. (same ≡ number) × (same ≤ most)) }
    ensures refused { IfErr result (λ unread. (unread ≡ Refused) × (most < number)) }
{
    if number <= most {
        Ok(number)
    } else {
        Err(Unread::Refused)
    }
}

/// Takes a digit and this byte behind it, or nothing if they are not there.
#[inline(always)]
pub fn take_digit(rest: &mut &[u8], end: u8) -> Option<u8>
    ensures text { MatchOption result (rest.new.now ≡ rest.old.now) (λ digit. rest.old.now ≡ digit ∷ (end ∷ rest.new.now)) }
    ensures digit { IfSome result (λ digit. (48 ≤ digit) × (digit ≤ 57)) }
    ensures none { IfNone result ((digit : ℕ) (behind : List ℕ) → 48 ≤ digit → digit ≤ 57 → rest.old.now ≢ digit ∷ (end ∷ behind)) }
{
    match *rest {
        [digit @ b'0'..=b'9', byte, after @ ..] if *byte == end => {
            *rest = after;
            Some(*digit)
        }
        _ => None,
    }
}

/// Takes a digit, or nothing if none is there.
#[inline(always)]
fn next_digit(rest: &mut &[u8]) -> Option<u8>
    ensures text { MatchOption result (rest.new.now ≡ rest.old.now) (λ digit. rest.old.now ≡ digit ∷ rest.new.now) }
    ensures digit { IfSome result (λ digit. (48 ≤ digit) × (digit ≤ 57)) }
    ensures none { IfNone result (EndsDigits rest.old.now) }
{
    match *rest {
        [digit @ b'0'..=b'9', after @ ..] => {
            *rest = after;
            Some(*digit)
        }
        _ => None,
    }
}

/// Takes the parenthesis of a node, or nothing if none is there, and says which.
#[inline(always)]
pub fn take_parenthesis(rest: &mut &[u8]) -> bool
    ensures { MatchBool result (rest.old.now ≡ 40 ∷ rest.new.now)
        ((rest.new.now ≡ rest.old.now) × ((behind : List ℕ) → rest.old.now ≢ 40 ∷ behind)) }
{
    match *rest {
        [b'(', inner @ ..] => {
            *rest = inner;
            true
        }
        _ => false,
    }
}

/// Takes this byte.
pub fn take_byte(rest: &mut &[u8], byte: u8) -> Result<(), Unread>
    ensures text { IfOk result (λ _. rest.old.now ≡ byte ∷ rest.new.now) }
    ensures refused { IfErr result (λ unread. (unread ≡ Refused) × ((behind : List ℕ) → rest.old.now ≢ byte ∷ behind)) }
{
    match *rest {
        [first, after @ ..] if *first == byte => {
            *rest = after;
            Ok(())
        }
        _ => Err(Unread::Refused),
    }
}
