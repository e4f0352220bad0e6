//! The nodes that were made, each once.
ghost use Rattle.std.specs.Prelude.{◌⊎◌, ◌∷◌, ◌++◌, ◌≡◌, ◌≢◌, AllPairs, ◌<◌, ◌≤◌, ◌+◌, [], Some, length, slice_get, OnOk, OnErr, IfOk, IfSome, IsSome, ◌↔◌};
ghost use Rattle.std.specs.Option.{option_copied};
ghost use Rattle.decision_tree.specs.Graph.{Grows};

use crate::node::{Node, NodeNo};
use indexmap::IndexSet;
use sled_base::NoMemory;
use std::alloc::Global;
use std::marker::Model;

/// The nodes that were made, no two of them equal. A contract sees the list of them, in the order of their numbers.
#[derive(Drop)]
pub struct Arena {
    nodes: IndexSet<Node>,
}

impl Model for Arena {
    ghost use Rattle.std.specs.Prelude.{List};
    ghost use Rattle.decision_tree.specs.declared.node.Node.{Node};

    ghost Value = { List Node };

    ghost view = { λ a. a.nodes.keys };
}

impl Arena {
    /// No node yet.
    pub fn new(alloc: Global) -> Arena
        ensures { result ≡ [] }
    {
        Arena {
            nodes: IndexSet::new(alloc),
        }
    }

    /// How many nodes there are.
    pub fn len(&self) -> usize
        ensures len { result ≡ length self.now }
        ensures distinct { AllPairs (λ a b. a ≢ b) self.now }
    {
        self.nodes.len()
    }

    /// The nodes, in the order of their numbers.
    pub fn as_slice(&self) -> &[Node]
        ensures { result.now ≡ self.now }
    {
        self.nodes.as_slice()
    }

    /// The node of that number.
    pub fn get(&self, number: NodeNo) -> Option<&Node>
        ensures { option_copied result ≡ slice_get self.now number.0 }
    {
        self.nodes.get_index(number.0)
    }

    /// The number of the node, which is found among the others or added.
    pub fn add(&mut self, node: Node) -> Result<NodeNo, NoMemory>
        ensures stored { IfOk result (λ n. slice_get self.new n.0 ≡ Some node) }
        ensures within { IfOk result (λ n. n.0 < length self.new) }
        ensures grows { IfOk result (λ n. Grows self.old self.new node n.0) }
    {
        let number = self.keep(node)?;
        Ok(number)
    }

    fn keep(&mut self, node: Node) -> Result<NodeNo, NoMemory>
        ensures stored { IfOk result (λ n. slice_get self.new n.0 ≡ Some node) }
        ensures within { IfOk result (λ n. n.0 < length self.new) }
        ensures longer { OnOk result ((self.new ≡ self.old) ⊎ (self.new ≡ self.old ++ node ∷ [])) }
        ensures distinct { OnOk result (AllPairs (λ a b. a ≢ b) self.new) }
    {
        let (number, _) = self.nodes.insert_full(node)?;
        Ok(NodeNo(number))
    }
}
