//! A segment of a run in one thread, bit by bit.

ghost use Rattle.std.specs.Prelude.{◌≡◌, ◌⊎◌, ◌<◌, ◌≤◌, ℕ, OnOk, true, false, length};
ghost use Rattle.gw_run.specs.Ports.{NoneWaits};
ghost use Rattle.gw_run.specs.Sites.{IsAheadUpTo, Reaches, SiteHolds, SiteIdles, SiteMakes};

use crate::port::{Port, Site};
use can_frame::Memory;
use gw_site::make_bit;
use std::sync::Wait;

/// Whether no request waits for any of these controllers: then none is ready, however often they are asked.
fn none_waits(ports: &[Port]) -> bool
    ensures none { result ≡ true → NoneWaits ports.now }
    ensures some { result ≡ false → NoneWaits ports.now → ⊥ }
{
    for port in ports {
        if port.mail.core().first().is_some() {
            return false;
        }
    }
    true
}

/// Simulates bits of an idle bus until a segment has made `until` of them, where no request waits for any of its
/// controllers: their ports need not be asked at these bits. Else it changes nothing. Returns whether the segment has
/// `until` bits then, also where it had as many before.
pub(crate) fn idle_on(site: &mut Site, until: u64) -> bool
    requires holds { SiteHolds site.old.segment site.old.ports.items }
    requires ahead { IsAheadUpTo until site.old.segment }
    ensures idles { SiteIdles until site.old site.new }
    ensures far { result ≡ true → until ≤ length site.new.segment.levels }
    ensures near { result ≡ false → length site.new.segment.levels < until }
    ensures reaches { Reaches until site.old → until ≤ length site.new.segment.levels }
    ensures unasked { (site.new ≡ site.old) ⊎ NoneWaits site.old.ports.items }
{
    if until <= site.segment.record().levels.len() as u64 {
        return true;
    }
    if !none_waits(site.ports.as_slice()) {
        return false;
    }
    site.segment.idle_bits(until);
    until <= site.segment.record().levels.len() as u64
}

/// Returns a bit up to which `idle_on` gets a segment: that until which its bus is known to idle, where no request waits
/// for any of its controllers; else, or where that bit is past, its next one.
pub(crate) fn idles_until(site: &Site) -> u64
    ensures reaches { Reaches result site.now }
    ensures least { length site.now.segment.levels ≤ result }
{
    let made = site.segment.record().levels.len() as u64;
    let idle = site.segment.idle_until();
    if idle <= made || !none_waits(site.ports.as_slice()) {
        return made;
    }
    idle
}

/// A segment with its controllers makes bits until there are so many, of all that it has to make, unless there are
/// already; and behind them such as need no port, which are the same whenever they are made. `Memory` where the record
/// could not grow.
pub(crate) fn bits_of<R: Wait>(rt: &R, site: &mut Site, until: u64, bits: u64) -> Result<(), Memory>
    requires holds { SiteHolds site.old.segment site.old.ports.items }
    requires plan { site.old.segment.plan.bits ≡ bits }
    requires until { until ≤ bits }
    requires ahead { IsAheadUpTo until site.old.segment }
    requires at_most { length site.old.segment.levels ≤ bits }
    ensures { OnOk result (SiteMakes until bits site.old site.new) }
{
    while !idle_on(site, until) {
        make_bit(rt, &mut site.segment, site.ports.as_mut_slice())?;
        site.segment.uneventful_bits(bits);
    }
    Ok(())
}
