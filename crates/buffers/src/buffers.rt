// A buffer of records for each of four processors.
ghost use Rattle.std.specs.Prelude.{◌≡◌, ◌≤◌, length, vec_capacity, All};

mod methods;

// Each buffer has room for 64 from the start.
#[derive(Drop)]
pub struct Buffers<T> {
    buffers: [Vec<T>; 4],
    ghost whole: { length buffers ≡ 4 },
    ghost room: { All (λ v. 64 ≤ vec_capacity v) buffers },
}
