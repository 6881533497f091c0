//! How many connections a run accepts.
ghost use Rattle.std.specs.Prelude.{◌≡◌, MatchOption};
ghost use Rattle.scan_run.specs.Limits.{AreConnections, ConnectionsLaw};

/// Connections of one run, at most.
pub const MAX_CONNECTIONS: usize = 64;

/// The law of the limit: `MAX_CONNECTIONS` is 64.
pub fn connections_law()
    ensures { ConnectionsLaw }
{}

/// How many connections a run accepts: 1 to `MAX_CONNECTIONS`.
#[derive(Clone, Copy, Debug)]
pub struct Connections {
    count: usize,
    ghost bounds: { AreConnections count },
}

impl Connections {
    /// `count` connections, if there may be as many.
    pub fn new(count: usize) -> Option<Connections>
        ensures { MatchOption result (¬ AreConnections count) (λ connections. connections.count ≡ count) }
    {
        if (1..=MAX_CONNECTIONS).contains(&count) {
            Some(Connections { count })
        } else {
            None
        }
    }

    /// How many they are.
    pub fn count(self) -> usize
        ensures value { result ≡ self.count }
        ensures bounds { AreConnections result }
    {
        self.count
    }
}
