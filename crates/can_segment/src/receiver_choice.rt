//! Chooses the node from which the shared receiver is taken. The choice affects speed only: a node is deferred only
//! where it matches the shared receiver, whichever node that was taken from.

use can_node::SharedReceiver;
use can_station::Member;

/// Returns the first of these nodes that listens before this bit.
fn first_of(members: &[Member], bit: u64) -> Option<&Member> {
    members.iter().find(|member| member.listens_at(bit))
}

/// Returns the first talker that listens before this bit, else the first controller that does.
pub(crate) fn first_listening<'a>(
    talkers: &'a [Member],
    controllers: &'a [Member],
    bit: u64,
) -> Option<&'a Member> {
    match first_of(talkers, bit) {
        Some(member) => Some(member),
        None => first_of(controllers, bit),
    }
}

/// Returns the first node that at least a third of the listening nodes match before this bit; where there is none, the
/// one that most of them match.
pub(crate) fn one_of_many<'a>(
    talkers: &'a [Member],
    controllers: &'a [Member],
    bit: u64,
) -> Option<&'a Member> {
    let mut chosen = None;
    let mut most = 0;
    for member in talkers.iter().chain(controllers) {
        if !member.listens_at(bit) {
            continue;
        }
        let shared_receiver = member.station.node.shared_receiver();
        let mut votes = Votes::none();
        votes.count_all(talkers, &shared_receiver, bit);
        votes.count_all(controllers, &shared_receiver, bit);
        if votes.alike >= votes.listening / 3 {
            return Some(member);
        }
        if votes.alike > most {
            most = votes.alike;
            chosen = Some(member);
        }
    }
    chosen
}

/// How many nodes listen, and how many of them match a shared receiver.
#[derive(Drop)]
pub(crate) struct Votes {
    pub(crate) listening: usize,
    pub(crate) alike: usize,
}

impl Votes {
    /// Counts no node yet.
    pub(crate) fn none() -> Votes {
        Votes {
            listening: 0,
            alike: 0,
        }
    }

    /// Counts this node before this bit.
    #[inline(always)]
    fn count_one(&mut self, member: &Member, shared_receiver: &SharedReceiver, bit: u64) {
        if member.listens_at(bit) {
            self.listening = self.listening.saturating_add(1);
            if member.station.node.matches(shared_receiver) {
                self.alike = self.alike.saturating_add(1);
            }
        }
    }

    /// Counts each of these nodes before this bit.
    fn count_all(&mut self, members: &[Member], shared_receiver: &SharedReceiver, bit: u64) {
        for member in members {
            self.count_one(member, shared_receiver, bit);
        }
    }
}
