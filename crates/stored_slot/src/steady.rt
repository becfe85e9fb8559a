//! The wire of nodes that are in memory, which never fails.
ghost use Rattle.std.specs.Prelude.{◌≡◌};
ghost use Rattle.stored_slot.specs.SteadyCounts.{node_counts, no_faults};

use extent_node::{Delivery, Node, Wire};

/// How often each node was called.
#[derive(Drop)]
struct NodeCounts {
    zero: u128,
    one: u128,
    two: u128,
}

impl NodeCounts {
    ghost use Rattle.extent_node.specs.Faults.{CountsCall};

    // No call yet.
    const fn none() -> Self {
        Self {
            zero: 0,
            one: 0,
            two: 0,
        }
    }

    // One more call of the node.
    #[tactic(auto, unfolding(extent_node::specs::Faults::one_more))]
    fn add(&mut self, node: Node)
        ensures { CountsCall node (node_counts self.old) (node_counts self.new) }
    {
        match node {
            Node::Zero => self.zero = self.zero.saturating_add(1),
            Node::One => self.one = self.one.saturating_add(1),
            Node::Two => self.two = self.two.saturating_add(1),
        }
    }
}

/// The wire to nodes in the memory of this process: each block is taken, and each node answers.
///
/// It counts no fault, whatever it is asked: so a slot over it never answers N1 or N2.
#[derive(Drop)]
pub struct Steady {
    puts: NodeCounts,
    asks: NodeCounts,
}

impl Steady {
    /// A wire without calls. Takes no memory.
    pub fn new() -> Self {
        Self {
            puts: NodeCounts::none(),
            asks: NodeCounts::none(),
        }
    }
}

impl Wire for Steady {
    ghost use Rattle.std.specs.Prelude.{◌≡◌, true};
    ghost use Rattle.extent_node.specs.Faults.{CountsAsk, CountsAskFault, CountsPut, CountsPutFault, is_done};
    ghost use Rattle.extent_node.specs.declared.wire.Delivery.TheVariants.{Done};
    ghost use Rattle.stored_slot.specs.SteadyCounts.{node_counts, no_faults};

    ghost calls = { λ s. record { puts = node_counts s.puts; asks = node_counts s.asks } };

    ghost faults = { λ s. no_faults };

    fn put(&mut self, node: Node) -> Delivery
        ensures called { CountsPut node (record { puts = node_counts self.old.puts; asks = node_counts self.old.asks }) (record { puts = node_counts self.new.puts; asks = node_counts self.new.asks }) }
        ensures counted { CountsPutFault node (is_done result) no_faults no_faults }
        ensures done { result ≡ Done }
    {
        self.puts.add(node);
        Delivery::Done
    }

    fn ask(&mut self, node: Node) -> bool
        ensures called { CountsAsk node (record { puts = node_counts self.old.puts; asks = node_counts self.old.asks }) (record { puts = node_counts self.new.puts; asks = node_counts self.new.asks }) }
        ensures counted { CountsAskFault node result no_faults no_faults }
        ensures answered { result ≡ true }
    {
        self.asks.add(node);
        true
    }
}
