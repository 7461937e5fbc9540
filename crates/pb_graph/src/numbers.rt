// The numbers of the groups, in the order of their least nodes.

ghost use Rattle.std.specs.Prelude.{◌≡◌, ◌≢◌, ℕ, ◌<◌, ◌≤◌, ◌^◌, length, IfOk};
ghost use Rattle.pb_graph.specs.Parts.{label_at};
ghost use Rattle.pb_graph.specs.Numbers.{number_of, AreNumbered};

use std::alloc::{AllocError, Global};

/// The number of each node's group, and the least node of each group.
#[derive(Drop)]
pub struct Numbers {
    pub group: Vec<u32>,
    pub least: Vec<u32>,
}

// The number of the group of a node, if the numbers of the nodes before it are known.
fn number(group: &[u32], groups: u32, node: u32, label: u32) -> u32
    requires { label ≢ node → label < length group.now }
    ensures { result ≡ number_of group.now groups node label }
{
    if label == node {
        groups
    } else {
        group[label as usize]
    }
}

/// Numbers the groups in the order of their least nodes, if the label of each node is the least node of its group.
pub fn number_all(alloc: Global, labels: &[u32]) -> Result<Numbers, AllocError>
    requires few { length labels.now < 2 ^ 32 }
    requires low { (n : ℕ) → n < length labels.now → label_at labels.now n ≤ n }
    requires own { (n : ℕ) → n < length labels.now
        → label_at labels.now (label_at labels.now n) ≡ label_at labels.now n }
    ensures { IfOk result (λ numbers.
        AreNumbered labels.now (length labels.now) numbers.group.items numbers.least.items) }
{
    let mut group = Vec::new(alloc);
    let mut least = Vec::new(alloc);
    for (node, label) in labels.iter().enumerate() {
        let group_of = number(&group, least.len() as u32, node as u32, *label);
        group.push(group_of)?;
        if *label == node as u32 {
            least.push(node as u32)?;
        }
    }
    Ok(Numbers { group, least })
}
