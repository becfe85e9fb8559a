//! A wire that answers from lists.
ghost use Rattle.std.specs.Prelude.{◌≡◌, ◌+◌, ◌≤◌, ◌<◌};
ghost use Rattle.extent_node.specs.Faults.{CountsCall, CountsFault, fault_unless};
ghost use Rattle.extent_node.specs.Scripts.{counts_of, no_counts, total};

use crate::wire::{Call, Delivery, Node, Wire};
use std::alloc::Global;
use std::marker::Model;

/// One number for each node.
#[derive(Drop)]
pub(crate) struct Tally {
    pub zero: u128,
    pub one: u128,
    pub two: u128,
}

impl Tally {
    // Nothing was counted yet.
    fn new() -> Self
        ensures counts { counts_of result ≡ no_counts }
        ensures total { total result ≡ 0 }
    {
        Self {
            zero: 0,
            one: 0,
            two: 0,
        }
    }

    // One more call of the node.
    #[tactic(auto, unfolding(crate::specs::Faults::one_more))]
    fn add_call(&mut self, node: Node)
        ensures { CountsCall node (counts_of self.old) (counts_of self.new) }
    {
        match node {
            Node::Zero => self.zero = self.zero.saturating_add(1),
            Node::One => self.one = self.one.saturating_add(1),
            Node::Two => self.two = self.two.saturating_add(1),
        }
    }

    // One more call of the node, which ended well or not.
    fn add_fault_unless(&mut self, node: Node, good: bool)
        requires { total self.old < 340_282_366_920_938_463_463_374_607_431_768_211_455 }
        ensures counted { CountsFault node good (counts_of self.old) (counts_of self.new) }
        ensures total { total self.new ≡ total self.old + fault_unless good }
    {
        if good {
            return;
        }
        match node {
            Node::Zero => self.zero += 1,
            Node::One => self.one += 1,
            Node::Two => self.two += 1,
        }
    }
}

/// A wire for tests, which gives the deliveries and the answers of its lists in turn.
///
/// After the end of a list it gives Done and yes.
#[derive(Drop)]
pub struct Script {
    puts: Vec<Delivery>,
    asks: Vec<bool>,
    // How many puts and asks were answered from the lists.
    put_count: usize,
    ask_count: usize,
    called: Vec<Call>,
    put_calls: Tally,
    ask_calls: Tally,
    put_faults: Tally,
    ask_faults: Tally,
}

impl Model for Script {
    ghost use Rattle.std.specs.Prelude.{◌≤◌, length};
    ghost use Rattle.extent_node.specs.Scripts.{Scripted, counts_of, total};

    ghost Value = { Scripted };

    ghost view = { λ s. record {
      puts = s.puts.items;
      put_count = s.put_count;
      asks = s.asks.items;
      ask_count = s.ask_count;
      called = s.called.items;
      calls = record { puts = counts_of s.put_calls; asks = counts_of s.ask_calls };
      faults = record { puts = counts_of s.put_faults; asks = counts_of s.ask_faults };
    } };

    // Only an answer from a list is a fault, so these numbers never overflow.
    ghost invariant = { λ s.
        ((total s.put_faults ≤ s.put_count) × (total s.ask_faults ≤ s.ask_count))
        × ((s.put_count ≤ length s.puts.items) × (s.ask_count ≤ length s.asks.items)) };
}

impl Script {
    ghost use Rattle.std.specs.Prelude.{◌≡◌};
    ghost use Rattle.extent_node.specs.Scripts.{IsNoted, new_script};

    /// A wire that gives these deliveries and these answers in turn.
    pub fn new(alloc: Global, puts: Vec<Delivery>, asks: Vec<bool>) -> Self
        ensures { result ≡ new_script puts.items asks.items }
    {
        Self {
            puts,
            asks,
            put_count: 0,
            ask_count: 0,
            called: Vec::new(alloc),
            put_calls: Tally::new(),
            ask_calls: Tally::new(),
            put_faults: Tally::new(),
            ask_faults: Tally::new(),
        }
    }

    /// The puts and the asks, in their order. A call is missing if memory ran out for it.
    pub fn called(&self) -> &[Call]
        ensures { result.now ≡ self.now.called }
    {
        &self.called
    }

    // Keeps the call in the list, if there is memory for it.
    fn note(&mut self, call: Call)
        ensures noted { IsNoted call self.old.called self.new.called }
        ensures puts { self.new.puts ≡ self.old.puts }
        ensures asks { self.new.asks ≡ self.old.asks }
        ensures put_count { self.new.put_count ≡ self.old.put_count }
        ensures ask_count { self.new.ask_count ≡ self.old.ask_count }
        ensures calls { self.new.calls ≡ self.old.calls }
        ensures faults { self.new.faults ≡ self.old.faults }
    {
        let _kept = self.called.push(call);
    }
}

impl Wire for Script {
    ghost use Rattle.std.specs.Prelude.{◌≡◌};
    ghost use Rattle.extent_node.specs.Faults.{CountsAsk, CountsAskFault, CountsPut, CountsPutFault, is_done};
    ghost use Rattle.extent_node.specs.Scripts.{IsNoted, given_more, next_put, next_ask};
    ghost use Rattle.extent_node.specs.declared.wire.Call.TheVariants.{Ask, Put};

    ghost calls = { λ s. s.calls };

    ghost faults = { λ s. s.faults };

    fn put(&mut self, node: Node) -> Delivery
        ensures called { CountsPut node self.old.calls self.new.calls }
        ensures counted { CountsPutFault node (is_done result) self.old.faults self.new.faults }
        ensures told { result ≡ next_put self.old }
        ensures given { self.new.put_count ≡ given_more self.old.puts self.old.put_count }
        ensures ask_count { self.new.ask_count ≡ self.old.ask_count }
        ensures puts { self.new.puts ≡ self.old.puts }
        ensures asks { self.new.asks ≡ self.old.asks }
        ensures noted { IsNoted (Put node) self.old.called self.new.called }
    {
        self.note(Call::Put(node));
        self.put_calls.add_call(node);
        match self.puts.get(self.put_count) {
            Some(delivery) => {
                let delivery = *delivery;
                self.put_count += 1;
                self.put_faults.add_fault_unless(node, delivery.is_done());
                delivery
            }
            None => Delivery::Done,
        }
    }

    fn ask(&mut self, node: Node) -> bool
        ensures called { CountsAsk node self.old.calls self.new.calls }
        ensures counted { CountsAskFault node result self.old.faults self.new.faults }
        ensures told { result ≡ next_ask self.old }
        ensures given { self.new.ask_count ≡ given_more self.old.asks self.old.ask_count }
        ensures put_count { self.new.put_count ≡ self.old.put_count }
        ensures puts { self.new.puts ≡ self.old.puts }
        ensures asks { self.new.asks ≡ self.old.asks }
        ensures noted { IsNoted (Ask node) self.old.called self.new.called }
    {
        self.note(Call::Ask(node));
        self.ask_calls.add_call(node);
        match self.asks.get(self.ask_count) {
            Some(answer) => {
                let answer = *answer;
                self.ask_count += 1;
                self.ask_faults.add_fault_unless(node, answer);
                answer
            }
            None => true,
        }
    }
}
