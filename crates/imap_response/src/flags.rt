//! Flags between parentheses (RFC 9051, section 9, flag-list and flag-perm).

ghost use Rattle.std.specs.Prelude.{◌≡◌, ◌≤◌, ◌⊎◌, ℕ, List, length, IfOk, IfErr, Some};
ghost use Rattle.flag_set.specs.FlagList.{flags_of, flags_alone, first_fault_of};
ghost use Rattle.imap_response.specs.Flags.{kept, follows, flag_place, list_len, listed, listed_permanent, flags_at, permanent_at};
ghost use Rattle.imap_response.specs.Reads.{Gives};
ghost use Rattle.imap_model.specs.Small.{AreFew};

use crate::fault::Misfit;
use crate::leaf::mark;
use crate::runs::{is_atom_byte, start_behind, token_place};
use flag_set::{FlagFault, FlagSet, is_flag_list, is_permanent_list, read_permanent};
use std::alloc::Global;

// A set of flags, or why it is too large. In the latter case the set has no flags.
#[derive(Drop)]
pub(crate) struct Listed {
    pub(crate) flags: FlagSet,
    pub(crate) any: bool,
    pub(crate) excess: Option<FlagFault>,
}

// Flags in parentheses, and what stands behind them.
#[tactic(auto, unfolding(crate::specs::Flags::flags_at))]
pub(crate) fn flags(alloc: Global, text: &[u8]) -> Result<(Listed, &[u8]), Misfit>
    ensures few { IfOk result (λ read. AreFew read.0.flags) }
    ensures value { Gives (λ read. (read.0, read.1.now)) result (flags_at kept text.now) }
{
    let inside = mark(text, b'(')?;
    let (list, behind) = inside.split_at(list_len(inside));
    if !is_flag_list(list) {
        return Err(Misfit::At {
            left: inside.len().saturating_sub(flag_place(list, false)),
        });
    }
    let rest = mark(behind, b')')?;
    Ok((flags_read(alloc, list)?, rest))
}

// Flags and `\*` in parentheses, and what stands behind them.
#[tactic(auto, unfolding(crate::specs::Flags::permanent_at))]
pub(crate) fn permanent(alloc: Global, text: &[u8]) -> Result<(Listed, &[u8]), Misfit>
    ensures few { IfOk result (λ read. AreFew read.0.flags) }
    ensures value { Gives (λ read. (read.0, read.1.now)) result (permanent_at kept text.now) }
{
    let inside = mark(text, b'(')?;
    let (list, behind) = inside.split_at(list_len(inside));
    if !is_permanent_list(list) {
        return Err(Misfit::At {
            left: inside.len().saturating_sub(flag_place(list, true)),
        });
    }
    let rest = mark(behind, b')')?;
    Ok((permanent_read(alloc, list)?, rest))
}

#[tactic(auto, using(crate::proofs::RunLemmas::run_within))]
fn list_len(text: &[u8]) -> usize
    ensures value { result ≡ list_len text.now }
    ensures within { result ≤ length text.now }
{
    text.iter().take_while(|byte| **byte != b')').count()
}

// The set of flags that are well formed.
fn flags_read(alloc: Global, list: &[u8]) -> Result<Listed, Misfit>
    ensures few { IfOk result (λ listed. AreFew listed.flags) }
    ensures value { IfOk result (λ read. read ≡ listed kept (flags_of list.now)) }
    ensures err { IfErr result (λ misfit. misfit ≡ Misfit.Memory) }
{
    match FlagSet::read_list(alloc, list) {
        Ok(flags) => Ok(Listed {
            flags,
            any: false,
            excess: None,
        }),
        Err(fault) => too_large(alloc, fault),
    }
}

// The same where `\*` may stand among them.
fn permanent_read(alloc: Global, list: &[u8]) -> Result<Listed, Misfit>
    ensures few { IfOk result (λ listed. AreFew listed.flags) }
    ensures value { IfOk result (λ read. read ≡ listed_permanent kept (flags_of list.now)) }
    ensures err { IfErr result (λ misfit. misfit ≡ Misfit.Memory) }
{
    match read_permanent(alloc, list) {
        Ok((flags, any)) => Ok(Listed {
            flags,
            any,
            excess: None,
        }),
        Err(fault) => too_large(alloc, fault),
    }
}

fn too_large(alloc: Global, fault: FlagFault) -> Result<Listed, Misfit>
    ensures few { IfOk result (λ listed. AreFew listed.flags) }
    ensures value { (flags : List (List ℕ)) → (first_fault_of flags ≡ Some fault) ⊎ (fault ≡ FlagFault.Memory)
        → IfOk result (λ read. read ≡ listed kept flags) }
    ensures permanent { (flags : List (List ℕ)) → (first_fault_of (flags_alone flags) ≡ Some fault) ⊎ (fault ≡ FlagFault.Memory)
        → IfOk result (λ read. read ≡ listed_permanent kept flags) }
    ensures err { IfErr result (λ misfit. misfit ≡ Misfit.Memory) }
{
    match fault {
        FlagFault::Memory => Err(Misfit::Memory),
        FlagFault::TooLong { .. } | FlagFault::TooMany { .. } | FlagFault::BadFlag { .. } => Ok(
            Listed {
                flags: FlagSet::none(alloc),
                any: false,
                excess: Some(fault),
            },
        ),
    }
}

// Where the first token of a list begins that doesn't fit, or the list's length.
fn flag_place(list: &[u8], permanent: bool) -> usize
    ensures { result ≡ flag_place permanent 40 0 0 list.now }
{
    let mut start = 0;
    let mut before = b'(';
    for at in 0..list.len() {
        let byte = list[at];
        if !follows(before, byte, permanent) {
            return token_place(byte, start, at);
        }
        start = start_behind(byte, start, at);
        before = byte;
    }
    list.len()
}

// Whether the byte may stand behind the other one in a list. In front of its first byte stands the parenthesis.
fn follows(before: u8, byte: u8, permanent: bool) -> bool
    ensures { result ≡ follows permanent before byte }
{
    match byte {
        b' ' => before != b'(' && before != b'\\',
        b'\\' => before == b'(' || before == b' ',
        b'*' => permanent && before == b'\\',
        _ => is_atom_byte(byte) && before != b'*',
    }
}
