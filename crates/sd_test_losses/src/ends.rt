ghost use Rattle.std.specs.Prelude.{◌≡◌, ◌<◌, IfSome};
ghost use Rattle.sd_head.specs.Staged.{IsHeadReady};
ghost use Rattle.sd_receive.specs.Receiving.{MayReceive};

use sd_base::Steps;
use sd_book::Book;
use sd_engine::{Stage, drive};
use sd_head::Head;
use sd_ports::MemSink;
use sd_ports_memory::MemSource;
use sd_receive::{Ending, Receiver};
use sd_site_cards::Card;
use sd_tree_keys::Leaf;
use std::alloc::Global;
use std::marker::Brand;
use std::sync::ledger::{Blank, Ledger};

/// How many bytes are read and written at a time.
const PIECE: usize = 65_536;

/// What a stage writes of a stream, where there is room for so many bytes and nothing is refused.
fn taken<L: Ledger, G: Stage<MemSink, L>>(
    alloc: Global,
    stream: Vec<u8>,
    room: usize,
    stage: &mut G,
    steps: &mut Steps<L>,
) -> Option<Vec<u8>>
    requires { G.live stage.old }
{
    let mut source = MemSource::new(stream, PIECE, Vec::new(alloc));
    let Ok(mut sink) = MemSink::new(alloc, room, PIECE, Vec::new(alloc)) else {
        return None;
    };
    match drive(&mut source, &mut sink, stage, steps) {
        Ok(_) => Some(sink.into_bytes()),
        Err(_) => None,
    }
}

/// The head end of a site under a book.
fn head_of(alloc: Global, site: &[u8], book: &[u8]) -> Option<Head>
    ensures { IfSome result IsHeadReady }
{
    let Ok(site) = sd_site_cards::read(site) else {
        return None;
    };
    let Ok(book) = Book::read(alloc, book, site.height) else {
        return None;
    };
    match Head::new(alloc, site, book) {
        Ok(head) => Some(head),
        Err(_) => None,
    }
}

/// What a head end sends of a clear stream, where there is room for so many bytes.
pub(crate) fn broadcast(
    alloc: Global,
    site: &[u8],
    book: &[u8],
    clear: Vec<u8>,
    room: usize,
) -> Option<Vec<u8>> {
    sent::<Brand>(alloc, site, book, clear, room, Blank::new(1))
}

fn sent<L: Ledger>(
    alloc: Global,
    site: &[u8],
    book: &[u8],
    clear: Vec<u8>,
    room: usize,
    blank: Blank,
) -> Option<Vec<u8>>
    requires name { blank.name ≡ L.name }
    requires parts { blank.parts ≡ L.parts }
    requires some { 0 < blank.parts }
{
    let mut steps = Steps::<L>::new(blank);
    let mut head = head_of(alloc, site, book)?;
    taken(alloc, clear, room, &mut head, &mut steps)
}

/// The receiver of a leaf.
fn receiver_of<L: Ledger>(
    alloc: Global,
    site: &[u8],
    leaf: u32,
    steps: &mut Steps<L>,
) -> Option<Receiver>
    ensures { IfSome result MayReceive }
{
    let Ok(site) = sd_site_cards::read(site) else {
        return None;
    };
    let leaf = Leaf::new(site.height, leaf)?;
    let Ok(card) = Card::make(alloc, &site, leaf, steps) else {
        return None;
    };
    match Receiver::new(alloc, card) {
        Ok(receiver) => Some(receiver),
        Err(_) => None,
    }
}

/// How a stream ends for the card of a leaf, and what is written of it, where there is room for so many bytes and
/// nothing is refused.
pub(crate) fn received(
    alloc: Global,
    site: &[u8],
    leaf: u32,
    stream: Vec<u8>,
    room: usize,
) -> Option<(Ending, Vec<u8>)> {
    heard::<Brand>(alloc, site, leaf, stream, room, Blank::new(1))
}

fn heard<L: Ledger>(
    alloc: Global,
    site: &[u8],
    leaf: u32,
    stream: Vec<u8>,
    room: usize,
    blank: Blank,
) -> Option<(Ending, Vec<u8>)>
    requires name { blank.name ≡ L.name }
    requires parts { blank.parts ≡ L.parts }
    requires some { 0 < blank.parts }
{
    let mut steps = Steps::<L>::new(blank);
    let mut receiver = receiver_of(alloc, site, leaf, &mut steps)?;
    let out = taken(alloc, stream, room, &mut receiver, &mut steps)?;
    Some((receiver.ending(), out))
}
