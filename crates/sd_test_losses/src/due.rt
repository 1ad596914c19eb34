use sd_receive::Ending;

/// A thing that is sent: a table, the section of a period, a control message in its one part, or a clear packet.
#[derive(Clone, Copy, PartialEq, Eq)]
pub(crate) enum Thing {
    Cat,
    Section(u32),
    Message(usize),
    Clear(usize),
}

/// How a broadcast is laid out: six clear packets, a message before each second one and the tables before each fourth.
#[derive(Clone, Copy)]
pub(crate) struct Layout {
    /// The version of the messages.
    pub version: u32,
    /// The number of the first control word.
    pub first_word: u32,
    /// The period of the first four packets.
    pub first: u32,
    /// The period of the packets from the fifth on.
    pub later: u32,
    /// Whether the leaf is revoked from the fifth packet on.
    pub revoked: bool,
}

/// How many clear packets there are.
pub(crate) const CLEAR: usize = 6;

/// The closing message.
const CLOSING: usize = 3;

/// The counter of a clear packet of the scrambled PID, whose packets stand at the positions 28, 38, 48 and 60.
pub(crate) fn counter_of(k: usize) -> Option<u8> {
    match k {
        2 => Some(12),
        3 => Some(6),
        4 => Some(0),
        5 => Some(12),
        _ => None,
    }
}

/// Where the scrambled PID stands at a message.
fn position(message: usize) -> u64 {
    match message {
        0 | 1 => 15,
        2 => 38,
        _ => 60,
    }
}

impl Layout {
    /// All that is sent, in its order.
    pub(crate) fn sent(self) -> [Thing; 14] {
        [
            Thing::Cat,
            Thing::Section(self.first),
            Thing::Message(0),
            Thing::Clear(0),
            Thing::Clear(1),
            Thing::Message(1),
            Thing::Clear(2),
            Thing::Clear(3),
            Thing::Cat,
            Thing::Section(self.later),
            Thing::Message(2),
            Thing::Clear(4),
            Thing::Clear(5),
            Thing::Message(CLOSING),
        ]
    }

    /// The period of a message.
    fn period(self, message: usize) -> u32 {
        if message < 2 { self.first } else { self.later }
    }

    /// The message from which on packets have the control word of the one before message b.
    fn since(self, b: usize) -> usize {
        let before = b.saturating_sub(1);
        if self.version == 2 {
            before & !1
        } else {
            before
        }
    }

    /// Whether the leaf has a set in the section of a period.
    fn has_set(self, period: u32) -> bool {
        period == self.first || !self.revoked
    }
}

/// Whether the thing stands among these.
fn has(heard: &[Thing], thing: Thing) -> bool {
    for one in heard {
        if *one == thing {
            return true;
        }
    }
    false
}

/// Whether a section that has the leaf stands before a message, of the message's period.
fn is_entitled(heard: &[Thing], layout: Layout, message: usize) -> bool {
    let period = layout.period(message);
    for one in heard {
        match *one {
            Thing::Message(number) if number == message => return false,
            Thing::Section(q) if q == period => return layout.has_set(period),
            _ => {}
        }
    }
    false
}

/// The smallest number above a position that equals the counter mod 16.
fn moved(position: u64, counter: u8) -> u64 {
    for n in 1..=16 {
        let next = position.wrapping_add(n);
        if next % 16 == u64::from(counter) {
            return next;
        }
    }
    position
}

/// Whether the scrambled PID is at most 15 below its position at message b, where what was heard leads it from that at
/// message a.
fn is_near(heard: &[Thing], a: usize, b: usize) -> bool {
    let mut tracked = position(a);
    for k in 0..CLEAR {
        if a <= k / 2 && k / 2 < b && has(heard, Thing::Clear(k)) {
            if let Some(counter) = counter_of(k) {
                tracked = moved(tracked, counter);
            }
        }
    }
    position(b).wrapping_sub(tracked) <= 15
}

/// The newest message up to this one that is heard.
fn newest(heard: &[Thing], last: usize) -> Option<usize> {
    let mut newest = None;
    for message in 0..=last {
        if has(heard, Thing::Message(message)) {
            newest = Some(message);
        }
    }
    newest
}

/// The next message behind this one that is heard.
fn next(heard: &[Thing], message: usize) -> Option<usize> {
    for b in 0..=CLOSING {
        if message < b && has(heard, Thing::Message(b)) {
            return Some(b);
        }
    }
    None
}

/// Whether clear packet k is confirmed, by the newest message up to it that is heard and the next one.
pub(crate) fn is_confirmed(heard: &[Thing], layout: Layout, k: usize) -> bool {
    let (Some(a), Some(b)) = (newest(heard, k / 2), next(heard, k / 2)) else {
        return false;
    };
    has(heard, Thing::Clear(k))
        && layout.since(b) <= a
        && is_entitled(heard, layout, a)
        && (counter_of(k).is_none() || is_near(heard, a, b))
}

/// The period of the first message that is heard with a section that hasn't the leaf.
fn revoked(heard: &[Thing], layout: Layout) -> Option<u32> {
    for message in 0..=CLOSING {
        let period = layout.period(message);
        let is_revoked = !layout.has_set(period) && has(heard, Thing::Section(period));
        if is_revoked && has(heard, Thing::Message(message)) {
            return Some(period);
        }
    }
    None
}

/// The period of the first message that is heard without a section.
fn unheard(heard: &[Thing], layout: Layout) -> Option<u32> {
    for message in 0..=CLOSING {
        let period = layout.period(message);
        if has(heard, Thing::Message(message)) && !has(heard, Thing::Section(period)) {
            return Some(period);
        }
    }
    None
}

/// How it ends for the leaf where these things are heard after the first CAT, if there is one, and so many clear
/// packets are confirmed.
pub(crate) fn ending(heard: Option<&[Thing]>, layout: Layout, confirmed: usize) -> Ending {
    let Some(heard) = heard else {
        return Ending::NoCat;
    };
    if !has(heard, Thing::Message(CLOSING)) {
        return match newest(heard, CLOSING) {
            Some(a) => Ending::Unclosed((a as u64).saturating_add(1)),
            None => Ending::Unclosed(0),
        };
    }
    if let Some(period) = revoked(heard, layout) {
        return Ending::Revoked(period);
    }
    if let Some(period) = unheard(heard, layout) {
        return Ending::Unheard(period);
    }
    match CLEAR.saturating_sub(confirmed) {
        0 => Ending::Opened,
        missing => Ending::Gaps(missing as u64),
    }
}
