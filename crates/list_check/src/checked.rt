// A tile list that is known to pass its checks.
ghost use Rattle.std.specs.Prelude.{◌≡◌, length};
ghost use Rattle.refusal.specs.Refusal.{accepted};
ghost use Rattle.list_check.specs.ListCheck.{list_check};

// The words of a list, one behind the other, that is checked: a linear quadtree of a bed of an order.
#[derive(Clone, Copy)]
pub struct Quadtree<'a> {
    pub order: u32,
    pub words: &'a [u32],
    pub ghost passes: { list_check order (length words.now) words.now ≡ accepted },
}
