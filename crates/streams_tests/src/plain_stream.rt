//! A plain model of a stream, whose extents are lists and whose blocks are single bytes.
use crate::stream_samples::Told;
use extent_node::Delivery;
use std::alloc::Global;
use std::process::Abort;

/// A sealed extent: its blocks, and whether each node has a copy.
#[derive(Drop)]
struct PlainExtent {
    blocks: Vec<u8>,
    kept: (bool, bool, bool),
}

/// A stream over written deliveries and answers, after whose ends come Done and yes.
#[derive(Drop)]
pub(crate) struct PlainStream {
    alloc: Global,
    puts: [Delivery; 6],
    asks: [bool; 3],
    put_at: usize,
    ask_at: usize,
    sealed: Vec<PlainExtent>,
    // What each node has of the last extent.
    zero: Vec<u8>,
    one: Vec<u8>,
    two: Vec<u8>,
    acknowledged: usize,
    doubt: bool,
}

// The node takes the block, if its delivery says so.
fn deliver(rt: &impl Abort, node: &mut Vec<u8>, delivery: Delivery, block: u8) -> bool {
    if !matches!(delivery, Delivery::Refused) {
        node.push(block).expect(rt, "memory");
    }
    matches!(delivery, Delivery::Done)
}

// The smaller length, if the node answered.
fn least(answered: bool, node: &Vec<u8>, len: usize) -> usize {
    if answered { len.min(node.len()) } else { len }
}

impl PlainStream {
    pub fn new(alloc: Global, puts: [Delivery; 6], asks: [bool; 3]) -> Self {
        Self {
            alloc,
            puts,
            asks,
            put_at: 0,
            ask_at: 0,
            sealed: Vec::new(alloc),
            zero: Vec::new(alloc),
            one: Vec::new(alloc),
            two: Vec::new(alloc),
            acknowledged: 0,
            doubt: false,
        }
    }

    fn next_put(&mut self) -> Delivery {
        match self.puts.get(self.put_at) {
            Some(delivery) => {
                let delivery = *delivery;
                self.put_at += 1;
                delivery
            }
            None => Delivery::Done,
        }
    }

    fn next_ask(&mut self) -> bool {
        match self.asks.get(self.ask_at) {
            Some(answer) => {
                let answer = *answer;
                self.ask_at += 1;
                answer
            }
            None => true,
        }
    }

    // The blocks of some node that answered, cut to the smallest length among these nodes.
    fn common(&self, rt: &impl Abort, kept: (bool, bool, bool)) -> Vec<u8> {
        let len = least(kept.0, &self.zero, usize::MAX);
        let len = least(kept.1, &self.one, len);
        let len = least(kept.2, &self.two, len);
        let node = if kept.0 {
            &self.zero
        } else if kept.1 {
            &self.one
        } else {
            &self.two
        };
        let mut blocks = node.clone().expect(rt, "memory");
        blocks.truncate(len);
        blocks
    }

    // How many blocks are sealed, or `None` if no node answers.
    fn seal(&mut self, rt: &impl Abort) -> Option<usize> {
        let kept = (self.next_ask(), self.next_ask(), self.next_ask());
        if !kept.0 && !kept.1 && !kept.2 {
            return None;
        }
        let blocks = self.common(rt, kept);
        let len = blocks.len();
        self.sealed
            .push(PlainExtent { blocks, kept })
            .expect(rt, "memory");
        self.zero = Vec::new(self.alloc);
        self.one = Vec::new(self.alloc);
        self.two = Vec::new(self.alloc);
        self.acknowledged = 0;
        self.doubt = false;
        Some(len)
    }

    // The place of the next block.
    fn next(&self) -> Told {
        Told::At(self.sealed.len() as u64, self.acknowledged as u64)
    }

    // One try of a block, or `None` if it is excluded.
    fn try_once(&mut self, rt: &impl Abort, block: u8) -> Option<Told> {
        let place = self.next();
        let had = self.acknowledged;
        let (zero, one, two) = (self.next_put(), self.next_put(), self.next_put());
        let zero = deliver(rt, &mut self.zero, zero, block);
        let one = deliver(rt, &mut self.one, one, block);
        let two = deliver(rt, &mut self.two, two, block);
        if zero && one && two {
            self.acknowledged = self.zero.len();
            return Some(place);
        }
        self.doubt = true;
        match self.seal(rt) {
            None => Some(Told::Doubt),
            Some(len) if len > had => Some(place),
            Some(_) => None,
        }
    }

    pub fn append(&mut self, rt: &impl Abort, block: u8) -> Told {
        if self.doubt && self.seal(rt).is_none() {
            return Told::Busy;
        }
        if let Some(told) = self.try_once(rt, block) {
            return told;
        }
        match self.try_once(rt, block) {
            Some(told) => told,
            None => Told::Busy,
        }
    }

    pub fn settle(&mut self, rt: &impl Abort) -> Told {
        if !self.doubt {
            return Told::Clean;
        }
        let place = self.next();
        let had = self.acknowledged;
        match self.seal(rt) {
            None => Told::Busy,
            Some(len) if len > had => place,
            Some(_) => Told::Dropped,
        }
    }

    // The block at a place, and which nodes have it.
    fn find(&self, extent: usize, index: usize) -> Option<(u8, (bool, bool, bool))> {
        match self.sealed.get(extent) {
            Some(sealed) => match sealed.blocks.get(index) {
                Some(block) => Some((*block, sealed.kept)),
                None => None,
            },
            None => {
                if extent > self.sealed.len() || index >= self.acknowledged {
                    return None;
                }
                match self.zero.get(index) {
                    Some(block) => Some((*block, (true, true, true))),
                    None => None,
                }
            }
        }
    }

    pub fn read(&mut self, extent: usize, index: usize) -> Told {
        match self.find(extent, index) {
            None => Told::Nothing,
            Some((block, kept)) => {
                let answered = (kept.0 && self.next_ask())
                    || (kept.1 && self.next_ask())
                    || (kept.2 && self.next_ask());
                if answered {
                    Told::Read(block, 1)
                } else {
                    Told::Unreachable
                }
            }
        }
    }
}
