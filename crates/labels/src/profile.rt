// What a comparison looks at: one value for a vertex, made here and nowhere else.
ghost use Rattle.std.specs.Prelude.{◌≡◌, ◌<◌};
ghost use Rattle.labels.specs.Words.{profile_at};

use searches::Vertex;

// What is compared of a vertex: its label, and the label's weight: except in MNS, the greater weight is ahead.
#[derive(Clone, Copy)]
pub struct Profile {
    pub label: u64,
    pub weight: u64,
}

// What is compared of `vertex`.
pub fn profile_of(labels: &[u64; 64], weights: &[u64; 64], vertex: Vertex) -> Profile
    requires { vertex.0 < 64 }
    ensures { result ≡ profile_at labels.now weights.now vertex.0 }
{
    let v = vertex.0 as usize;
    let label = labels[v];
    let weight = weights[v];
    Profile { label, weight }
}
