ghost use Rattle.std.specs.Prelude.{◌≡◌, ◌+◌, ◌^◌, ◌<◌, ◌≤◌, length, nat_lt};
ghost use Rattle.residual.specs.Arcs.{arc_at, pushed, reverse};

use network::limits::{MAX_NODES, MAX_PIPES};

// The most vertices that a flow network within the limits has: its nodes, the source and the sink.
pub const MAX_VERTICES: usize = MAX_NODES + 2;

// The most arcs that one has: two for each source capacity, for each sink capacity and for each pipe.
pub const MAX_ARCS: usize = 2 * (2 * MAX_NODES + MAX_PIPES);

// What can still be sent from one vertex to another. Arcs 2k and 2k + 1 of a table are each other's reverse.
#[derive(Clone, Copy)]
pub struct Arc {
    pub from: usize,
    pub to: usize,
    pub remaining: u64,
}

impl Arc {
    // Whether the arc has residual capacity.
    pub fn is_open(self) -> bool
        ensures { result ≡ nat_lt 0 self.remaining }
    {
        self.remaining > 0
    }
}

// The arc that runs against arc `i`.
fn reverse_of(i: usize) -> usize
    requires { reverse i < 2 ^ 64 }
    ensures { result ≡ reverse i }
{
    if i % 2 == 0 { i + 1 } else { i - 1 }
}

// Sends an amount along arc `i`: it can take so much less, and its reverse so much more.
pub fn push(arcs: &mut [Arc], i: usize, amount: u64)
    requires within { (i < length arcs.old) × (reverse i < length arcs.old) }
    requires room { amount ≤ (arc_at arcs.old i).remaining }
    requires fits { (arc_at arcs.old (reverse i)).remaining + amount < 2 ^ 64 }
    ensures { arcs.new ≡ pushed arcs.old i amount }
{
    let back = reverse_of(i);
    arcs[i].remaining -= amount;
    arcs[back].remaining += amount;
}
