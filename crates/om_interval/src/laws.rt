//! What holds of vectors, whatever they stand for: each function stands for a theorem over the definitions alone.
ghost use Rattle.om_interval.specs.declared.pid.TheConstants.{MAX_PROCESSES};
ghost use Rattle.std.specs.Prelude.{◌≡◌, ◌≢◌, ℕ, ◌<◌, List, sum};
ghost use Rattle.om_interval.specs.Vectors.{IsBelow};

/// Proves that the numbers of a vector that is below another, and not that one, come to less.
pub fn lower_vector_has_smaller_sum()
    ensures { (low high : List ℕ) → IsBelow low high → low ≢ high → sum low < sum high }
{}

/// Proves that the limit of processes of a cluster is 16.
pub fn limits()
    ensures processes { MAX_PROCESSES ≡ 16 }
{}
