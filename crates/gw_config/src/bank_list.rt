//! The filter banks that a script lists for a controller.

ghost use Rattle.std.specs.Prelude.{◌≡◌, ◌<◌, ◌==◌, All, IfOk};
ghost use Rattle.std.specs.List.{list_any};
ghost use Rattle.serde_json.specs.View.{view, items_view};
ghost use Rattle.bx_rx.specs.Banks.{bank_count};
ghost use Rattle.gw_fields.specs.Faults.{Reads, ReadsUnlessMemory};
ghost use Rattle.gw_config.specs.BankLists.{scale_with, scale_of, mode_with, mode_of};
ghost use Rattle.gw_config.specs.BankLists.{settings_of, number_of, set_all, bank_items, banks_of};

use crate::filter::{filters_first, filters_of};
use crate::object::element_of;
use crate::version::Version;
use bx_rx::{Bank, Banks, Mode, Scale};
use gw_fields::{
    ReadsElement, ScriptFault, list, natural, optional_list, read_each, text, truth, whole,
};
use serde_json::Value;
use std::alloc::Global;

/// The fields that a bank of version 3 may have.
const FIELDS: [&'static str; 7] = ["bank", "scale", "mode", "fifo", "active", "r1", "r2"];

/// The number of a bank, and its settings.
#[derive(Clone, Copy)]
struct ListedBank {
    number: u8,
    settings: Bank,
}

fn scale_with(bits: u64) -> Result<Scale, ScriptFault>
    ensures { Reads (λ scale. scale) result (scale_with bits) }
{
    match bits {
        16 => Ok(Scale::Bits16),
        32 => Ok(Scale::Bits32),
        _ => Err(ScriptFault::Range("scale")),
    }
}

#[tactic(auto, unfolding(crate::specs::BankLists::scale_of))]
fn scale_of(from: &Value) -> Result<Scale, ScriptFault>
    ensures { Reads (λ scale. scale) result (scale_of (view from.now)) }
{
    let bits = natural(from, "scale")?;
    scale_with(bits)
}

fn mode_with(word: &str) -> Result<Mode, ScriptFault>
    ensures { Reads (λ mode. mode) result (mode_with word.now) }
{
    match word {
        "mask" => Ok(Mode::Mask),
        "list" => Ok(Mode::List),
        _ => Err(ScriptFault::Range("mode")),
    }
}

#[tactic(auto, unfolding(crate::specs::BankLists::mode_of))]
fn mode_of(from: &Value) -> Result<Mode, ScriptFault>
    ensures { Reads (λ mode. mode) result (mode_of (view from.now)) }
{
    let word = text(from, "mode")?;
    mode_with(word)
}

/// Returns the settings of a bank.
///
/// The first fault of `scale`, `mode`, `fifo`, `active`, `r1` and `r2`.
#[tactic(auto, unfolding(crate::specs::BankLists::settings_of))]
fn settings_of(from: &Value) -> Result<Bank, ScriptFault>
    ensures { Reads (λ bank. bank) result (settings_of (view from.now)) }
{
    let scale = scale_of(from)?;
    let mode = mode_of(from)?;
    let fifo = whole(from, "fifo", 0, 1)? as u8;
    let active = truth(from, "active")?;
    let r1 = whole(from, "r1", 0, 4_294_967_295)? as u32;
    let r2 = whole(from, "r2", 0, 4_294_967_295)? as u32;
    Ok(Bank::new(scale, mode, fifo, active, r1, r2))
}

fn is_listed(banks: &[ListedBank], number: u8) -> bool
    ensures { result ≡ list_any (λ b. b.number == number) banks.now }
{
    banks.iter().any(|bank| bank.number == number)
}

/// Returns the number of a bank. The first banks are those of the filters.
///
/// `Missing("bank")`, `Kind("bank")` or `Range("bank")`; `DoubleName("bank")` where the bank is that of a filter, or a
/// bank in front of this one has the same number.
#[tactic(auto, unfolding(crate::specs::BankLists::number_of))]
fn number_of(
    from: &Value,
    version: Version,
    filters: usize,
    front: &[ListedBank],
) -> Result<u8, ScriptFault>
    ensures value { Reads (λ n. n) result (number_of version filters front.now (view from.now)) }
    ensures range { IfOk result (λ n. n < bank_count) }
{
    let last = version.listed_banks() - 1;
    let number = whole(from, "bank", 0, last as u64)? as u8;
    if usize::from(number) < filters || is_listed(front, number) {
        Err(ScriptFault::DoubleName("bank"))
    } else {
        Ok(number)
    }
}

/// Reads the banks that a controller lists. `filters` is the number of its filters.
#[derive(Drop)]
struct BankReader {
    version: Version,
    filters: usize,
}

impl ReadsElement for BankReader {
    ghost use Rattle.std.specs.Prelude.{◌<◌};
    ghost use Rattle.bx_rx.specs.Banks.{bank_count};
    ghost use Rattle.gw_config.specs.BankLists.{listed_bank};

    type Element = ListedBank;

    ghost reading = { λ s. listed_bank s.version s.filters };

    ghost keeps = { λ s b. b.number < bank_count };

    /// Returns the bank that an element describes, behind those in front of it.
    #[tactic(auto, unfolding(crate::specs::BankLists::listed_bank))]
    fn read(
        &self,
        _alloc: Global,
        value: &Value,
        front: &[ListedBank],
    ) -> Result<ListedBank, ScriptFault> {
        let from = element_of(self.version, "banks", &FIELDS, value)?;
        let number = number_of(from, self.version, self.filters, front)?;
        match settings_of(from) {
            Ok(settings) => Ok(ListedBank { number, settings }),
            Err(fault) => Err(fault),
        }
    }
}

/// Returns these banks after the listed ones are set.
fn set_all(banks: Banks, listed: &[ListedBank]) -> Banks
    requires { All (λ b. b.number < bank_count) listed.now }
    ensures { result ≡ set_all banks listed.now }
{
    let mut banks = banks;
    for bank in listed {
        banks.set(bank.number, bank.settings);
    }
    banks
}

/// Returns the elements of a controller's list of banks; none where version 3 leaves the field `banks` out.
///
/// `Missing("banks")` in versions 1 and 2; `Kind` or `TooMany` of `banks`.
fn bank_items(from: &Value, version: Version) -> Result<&[Value], ScriptFault>
    ensures { Reads (λ v. items_view v.now) result (bank_items version (view from.now)) }
{
    let most = version.listed_banks();
    match version {
        Version::One | Version::Two => list(from, "banks", most),
        Version::Three => optional_list(from, "banks", most),
    }
}

/// Returns all banks of a controller: bank n is filter n, then the listed banks are set.
///
/// The faults of `filters`, then those of `banks`. `Memory` where an allocation failed.
#[tactic(auto, unfolding(crate::specs::BankLists::banks_of))]
pub fn banks_of(alloc: Global, from: &Value, version: Version) -> Result<Banks, ScriptFault>
    ensures { ReadsUnlessMemory (λ banks. banks) result (banks_of version (view from.now)) }
{
    let filters = filters_of(alloc, from, version)?;
    let items = bank_items(from, version)?;
    let reader = BankReader {
        version,
        filters: filters.len(),
    };
    let listed = read_each(alloc, items, &reader)?;
    Ok(set_all(filters_first(filters.as_slice()), listed.as_slice()))
}
