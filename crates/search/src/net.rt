ghost use Rattle.std.specs.Prelude.{◌≤◌, length};
ghost use Rattle.search.specs.Records.{Sound};

use crate::link::Link;

/// The links between the switches 1 to n of a network.
#[derive(Drop)]
pub struct Network<'l, L> {
    pub links: &'l [Link<L>],
    pub n: usize,
    ghost sound: { Sound n links.now },
    ghost small: { n ≤ 1024 },
    ghost few: { length links.now ≤ 8192 },
}
