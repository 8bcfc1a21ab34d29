// Numbers that look random and are the same on every run.
ghost use Rattle.std.specs.Prelude.{◌≡◌, ◌<◌};
ghost use Rattle.sampling.specs.Draws.{stepped, drawn, small};

// The state of the generator.
#[derive(Drop)]
pub struct Random {
    state: usize,
}

impl Random {
    // A generator that starts from this seed.
    pub fn new(seed: usize) -> Random
        ensures { result.state ≡ seed }
    {
        Random { state: seed }
    }

    // A number below the limit; 0 where the limit is 0.
    pub fn below(&mut self, limit: usize) -> usize
        ensures state { self.new.state ≡ stepped self.old.state }
        ensures value { result ≡ drawn (stepped self.old.state) limit }
        ensures within { 0 < limit → result < limit }
    {
        self.state = self
            .state
            .wrapping_mul(6_364_136_223_846_793_005)
            .wrapping_add(1_442_695_040_888_963_407);
        if limit == 0 {
            return 0;
        }
        (self.state >> 33) % limit
    }

    // A byte below the limit; 0 where the limit is 0, or the number is no byte.
    pub fn byte(&mut self, limit: usize) -> u8
        ensures state { self.new.state ≡ stepped self.old.state }
        ensures value { result ≡ small (drawn (stepped self.old.state) limit) }
        ensures within { 0 < limit → result < limit }
    {
        let number = self.below(limit);
        if number < 256 { number as u8 } else { 0 }
    }
}
