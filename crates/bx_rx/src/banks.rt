//! The filter banks of a controller.
ghost use Rattle.std.specs.Prelude.{◌≡◌, ◌+◌, ◌*◌, ◌<◌, ◌≤◌, replicate, take, slice_set};
ghost use Rattle.bx_rx.specs.Bank.{unlisted};
ghost use Rattle.bx_rx.specs.Banks.{bank_count, count_of, IsBest, IsFound};

use crate::bank::Bank;
use crate::images::Images;
use can_frame::Frame;
use std::marker::Model;

/// How many filter banks a controller has.
const BANKS: usize = 28;

/// The filter banks of a controller (RM0008, bxCAN, "Identifier filtering"). Contracts see the list
/// of the banks, bank 0 first.
#[derive(Clone, Copy, Debug, PartialEq, Eq)]
pub struct Banks {
    banks: [Bank; BANKS],
}

impl Model for Banks {
    ghost use Rattle.std.specs.Prelude.{List};
    ghost use Rattle.bx_rx.specs.Bank.{BankValue};

    ghost Value = { List BankValue };

    ghost use Rattle.bx_rx.specs.BanksParts.{banks_view, banks_parts, IsBanks};

    ghost view = { banks_view };

    ghost invariant = { IsBanks };

    ghost inverse = { banks_parts };
}

impl Banks {
    /// Banks that nobody set: 16 bit, mask, FIFO 0, inactive, both registers 0.
    pub fn new() -> Banks
        ensures { result ≡ replicate bank_count unlisted }
    {
        Banks {
            banks: [Bank::unlisted(); BANKS],
        }
    }

    /// Sets one bank, by its number, and leaves the others. The banks are numbered from 0 on.
    pub fn set(&mut self, bank: u8, settings: Bank)
        requires { bank < bank_count }
        ensures { self.new ≡ slice_set self.old bank settings }
    {
        self.banks[usize::from(bank)] = settings;
    }

    /// The FIFO that the frame goes to, and the number of the filter that it is received by, counted
    /// for that FIFO ("Filter match index"). Of the filters of active banks that match, 32 bits come
    /// before 16, then a list before a mask, then the lower bank, then the lower place ("Filter
    /// priority rules"). `None` where no filter of an active bank matches.
    pub fn find(&self, frame: &Frame) -> Option<(u8, u8)>
        ensures { IsFound self.now frame.now result }
    {
        let banks = &self.banks;
        let (number, place) = self.best(frame)?;
        let fifo = banks[number].fifo();
        Some((fifo, self.count_below(fifo, number) + place))
    }

    /// The bank and the place of the chosen filter.
    fn best(&self, frame: &Frame) -> Option<(usize, u8)>
        ensures { IsBest self.now frame.now bank_count result }
    {
        let images = Images::of(frame);
        let mut best: Option<(usize, u8)> = None;
        for (number, bank) in self.banks.iter().enumerate() {
            if !bank.is_active() {
                continue;
            }
            if let Some(place) = bank.first_match(images) {
                best = match best {
                    // at equal rank the lower bank wins, and it came first
                    Some((kept, at)) if !bank.outranks(&self.banks[kept]) => Some((kept, at)),
                    _ => Some((number, place)),
                };
            }
        }
        best
    }

    /// How many filters of the FIFO stand below a bank, those of inactive banks counted.
    fn count_below(&self, fifo: u8, number: usize) -> u8
        requires { number ≤ bank_count }
        ensures value { result ≡ count_of fifo (take number self.now) }
        ensures few { result ≤ 4 * bank_count }
    {
        let mut count = 0;
        for bank in &self.banks[..number] {
            if bank.fifo() == fifo {
                count += bank.filter_count();
            }
        }
        count
    }
}
