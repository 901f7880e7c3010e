//! Filters in plain words.

ghost use Rattle.std.specs.Prelude.{◌≡◌, ◌≤◌, ◌*◌, ◌^◌, IfOk, length};
ghost use Rattle.serde_json.specs.View.{view};
ghost use Rattle.bx_rx.specs.Banks.{bank_count};
ghost use Rattle.gw_fields.specs.Faults.{Reads, ReadsUnlessMemory};
ghost use Rattle.gw_fields.specs.IdentifierTexts.{all_bits};
ghost use Rattle.gw_config.specs.Filters.{register_bits, filter_bank, filter_of, filters_of, filters_first};
ghost use Rattle.gw_config.specs.Filters.{listed_filters};

use crate::object::element_of;
use crate::version::Version;
use bx_rx::{Bank, Banks, Mode, Scale};
use gw_fields::{
    Accept, ReadsElement, ScriptFault, accept_text, maybe_truth, optional_list, optional_whole,
    read_each, text,
};
use serde_json::Value;
use std::alloc::Global;

/// The greatest number of filters of a controller.
const MOST_FILTERS: usize = 28;

/// The fields that a filter of version 3 may have.
const FIELDS: [&'static str; 3] = ["accept", "remote", "fifo"];

/// IDE in a 32-bit register: 1 for an extended frame.
const IDE: u32 = 1 << 2;

/// RTR in a 32-bit register: 1 for a remote frame.
const RTR: u32 = 1 << 1;

/// Returns the bank of a filter: 32 bit, mask mode, active. IDE is always in the mask. RTR is in the mask where
/// `remote` is given.
fn filter_bank(accept: Accept, remote: Option<bool>, fifo: u8) -> Bank
    requires mask { accept.mask ≤ all_bits accept.id }
    requires two { fifo ≤ 1 }
    ensures { result ≡ filter_bank accept remote fifo }
{
    let id = accept.id;
    id.facts();
    let (shift, ide) = if id.is_extended() { (3, IDE) } else { (21, 0) };
    let (rtr, rtr_matters) = match remote {
        Some(true) => (RTR, RTR),
        Some(false) => (0, RTR),
        None => (0, 0),
    };
    let r1 = (id.number() << shift) + ide + rtr;
    let r2 = (accept.mask << shift) + IDE + rtr_matters;
    Bank::new(Scale::Bits32, Mode::Mask, fifo, true, r1, r2)
}

/// Reads the filters of a controller.
#[derive(Drop)]
struct FilterReader;

impl ReadsElement for FilterReader {
    ghost use Rattle.gw_config.specs.Filters.{filter_of};

    type Element = Bank;

    ghost reading = { λ s front. filter_of };

    ghost keeps = { λ s bank. Unit {0} };

    /// Returns the bank of the filter that an element describes.
    #[tactic(auto, unfolding(crate::specs::Filters::filter_of))]
    fn read(&self, _alloc: Global, value: &Value, _front: &[Bank]) -> Result<Bank, ScriptFault> {
        let from = element_of(Version::Three, "filters", &FIELDS, value)?;
        let word = text(from, "accept")?;
        let accept = match accept_text(word) {
            Ok(accept) => accept,
            Err(fault) => return Err(fault),
        };
        let remote = maybe_truth(from, "remote")?;
        let fifo = match optional_whole(from, "fifo", 0, 1)? {
            Some(fifo) => fifo as u8,
            None => 0,
        };
        Ok(filter_bank(accept, remote, fifo))
    }
}

/// Returns the banks of the filters that a controller lists, at most 28; none where the field `filters` is absent.
///
/// `Kind` or `TooMany` of `filters`, then the fault of the first element that is refused. `Memory` where an allocation
/// failed.
#[tactic(auto, unfolding(crate::specs::Filters::listed_filters))]
fn listed_filters(alloc: Global, from: &Value) -> Result<Vec<Bank>, ScriptFault>
    ensures value { ReadsUnlessMemory (λ v. v.items) result (listed_filters (view from.now)) }
    ensures few { IfOk result (λ v. length v.items ≤ bank_count) }
{
    let items = optional_list(from, "filters", MOST_FILTERS)?;
    read_each(alloc, items, &FilterReader)
}

/// Returns the banks of the filters of a controller, at most 28; none in versions 1 and 2.
///
/// The faults of `listed_filters` in version 3.
pub fn filters_of(alloc: Global, from: &Value, version: Version) -> Result<Vec<Bank>, ScriptFault>
    ensures value { ReadsUnlessMemory (λ v. v.items) result (filters_of version (view from.now)) }
    ensures few { IfOk result (λ v. length v.items ≤ bank_count) }
{
    match version {
        Version::One | Version::Two => Ok(Vec::new(alloc)),
        Version::Three => listed_filters(alloc, from),
    }
}

/// Returns all banks of a controller: bank n is filter n, and the banks behind the filters are not set.
pub fn filters_first(filters: &[Bank]) -> Banks
    requires { length filters.now ≤ bank_count }
    ensures { result ≡ filters_first filters.now }
{
    let mut banks = Banks::new();
    for (number, filter) in filters.iter().enumerate() {
        banks.set(number as u8, *filter);
    }
    banks
}
