//! Which clouds have done what an operation awaits.

ghost use Rattle.std.specs.Prelude.{◌≡◌, ◌==◌, ◌||◌, ◌<◌, ◌≤◌, ◌^◌, ℕ, false, length, filter, sum, map};
ghost use Rattle.std.specs.List.{range_with_len};

/// Marks on clouds, each of which is one of the 16 that a set can name.
#[derive(Clone, Copy, Debug)]
pub struct Marks {
    marked: [bool; 16],
}

impl Marks {
    ghost use Rattle.hy_operation.specs.Marks.{is_marked, marked_below};
    ghost use Rattle.hy_record.specs.Clouds.{set_of};

    /// No cloud is marked.
    #[tactic(auto, using(crate::proofs::Marking::unmarked), unfolding(crate::specs::Marks::is_marked))]
    pub fn none() -> Marks
        ensures { (cloud : ℕ) → is_marked result cloud ≡ false }
    {
        Marks {
            marked: [false; 16],
        }
    }

    /// Whether the cloud is marked.
    #[tactic(auto, unfolding(crate::specs::Marks::is_marked))]
    pub fn has(&self, cloud: u8) -> bool
        ensures { result ≡ is_marked self.now cloud }
    {
        match self.marked.get(usize::from(cloud)) {
            Some(mark) => *mark,
            None => false,
        }
    }

    /// Marks the cloud, if a set can name it.
    #[tactic(auto, unfolding(crate::specs::Marks::is_marked))]
    pub fn mark(&mut self, cloud: u8)
        ensures { (i : ℕ) → i < 16 → is_marked self.new i ≡ (is_marked self.old i || cloud == i) }
    {
        let place = usize::from(cloud);
        if place < self.marked.len() {
            self.marked[place] = true;
        }
    }

    /// How many of these clouds are marked.
    pub fn count_among(&self, clouds: &[u8]) -> usize
        ensures { result ≡ length (filter (λ cloud. is_marked self.now cloud) clouds.now) }
    {
        clouds.iter().filter(|cloud| self.has(**cloud)).count()
    }

    /// How many clouds below this number are marked.
    pub fn count_below(&self, n: u8) -> u8
        ensures { result ≡ length (marked_below self.now n) }
    {
        let mut count = 0u8;
        for cloud in 0..n {
            if self.has(cloud) {
                count += 1;
            }
        }
        count
    }

    /// The marked clouds below this number as a set: cloud i as bit i.
    pub fn set_below(&self, n: u8) -> u16
        requires { n ≤ 16 }
        ensures { result ≡ set_of (marked_below self.now n) }
    {
        let mut set = 0u16;
        for cloud in 0..n {
            if self.has(cloud) {
                set += bit_of(cloud);
            }
        }
        set
    }
}

/// The bit of the cloud.
fn bit_of(cloud: u8) -> u16
    requires { cloud < 16 }
    ensures { result ≡ 2 ^ cloud }
{
    1u16 << cloud
}
