ghost use Rattle.std.specs.Prelude.{◌≡◌, ℕ, ◌*◌, ◌<◌, ◌≤◌};
ghost use Rattle.network.specs.Limits.{max_nodes, max_weight};
ghost use Rattle.network.specs.Net.{Decides, Nodes, count, weight};
ghost use Rattle.network.specs.View.{view};

use super::Network;

impl Network {
    // The weight of the nodes that the first test chooses, and of those that the second one chooses.
    // (Two tests, since a score asks for the two sides of a set, or for two parts of it: one pass over the nodes serves
    // both. It goes by the numbers of the nodes, which the tests take.)
    pub(crate) fn weights_where<F: Fn(usize) -> bool, G: Fn(usize) -> bool>(
        &self,
        first: F,
        second: G,
    ) -> (u32, u32)
        requires first_test { (v : ℕ) → v < count (view self.now) → F.pre first v }
        requires second_test { (v : ℕ) → v < count (view self.now) → G.pre second v }
        ensures first_value { (X : Nodes) → Decides (F.post first) (count (view self.now)) X → result.0 ≡ weight (view self.now) X }
        ensures second_value { (X : Nodes) → Decides (G.post second) (count (view self.now)) X → result.1 ≡ weight (view self.now) X }
        ensures bounds { (result.0 ≤ max_nodes * max_weight) × (result.1 ≤ max_nodes * max_weight) }
    {
        let weights = self.weights.as_slice();
        (0..weights.len()).fold((0, 0), |(one, other), node| {
            let weight = weights[node];
            (
                if first(node) { one + weight } else { one },
                if second(node) { other + weight } else { other },
            )
        })
    }
}
