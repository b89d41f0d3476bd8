//! The parameters of a store.

ghost use Rattle.std.specs.Prelude.{◌≡◌, ◌<◌};
ghost use Rattle.hy_base.specs.declared.limits.TheConstants.{MAX_CLOUDS};
ghost use Rattle.hy_sched.specs.Params.{is_liar};

/// A store that bears `f` faulty clouds and cuts values into `k` parts, and its Byzantine clouds.
#[derive(Clone, Copy, Debug, PartialEq, Eq)]
pub struct Params {
    /// The faulty clouds that it bears, at most 3.
    pub f: u8,
    /// The parts that a value is cut into, 1 to 4.
    pub k: u8,
    /// The Byzantine clouds, which may be more than `f`: bit i is cloud i.
    pub liars: u16,
}

impl Params {
    /// Whether the cloud is Byzantine.
    pub(crate) fn is_liar(self, cloud: u32) -> bool
        requires { cloud < MAX_CLOUDS }
        ensures { result ≡ is_liar self cloud }
    {
        (self.liars >> cloud) % 2 == 1
    }
}
