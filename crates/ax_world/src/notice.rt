use ax_values::ItemName;
use std::marker::Model;

/// That a projection applied an item whose rule announces.
#[derive(Drop)]
pub struct Notice {
    /// The number of the projection processor.
    pub processor: u32,
    pub item: ItemName,
}

impl Model for Notice {
    ghost use Rattle.ax_state.specs.State.{Notice as Kept};

    ghost Value = { Kept };

    ghost view = { λ notice. record { processor = notice.processor; item = notice.item } };
}
