//! Acceptance filters and receive FIFOs of one bxCAN controller.
#![tactic(auto)]

mod bank;
mod banks;
mod images;
pub mod laws;
mod log;
mod mode;
mod offered;
mod rule;
mod rx_fifo;
mod rx_frame;
mod rx_in;
mod rx_out;
mod scale;

pub use crate::bank::Bank;
pub use crate::banks::Banks;
pub use crate::mode::Mode;
pub use crate::offered::Offered;
pub use crate::rx_fifo::RxFifo;
pub use crate::rx_frame::RxFrame;
pub use crate::rx_in::RxIn;
pub use crate::rx_out::RxOut;
pub use crate::scale::Scale;
pub use can_frame::Memory;
