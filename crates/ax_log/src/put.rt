ghost use Rattle.std.specs.Prelude.{◌≡◌, ◌<◌, ◌≤◌, length, vec_capacity, vec_len};
ghost use Rattle.ax_log.specs.Log.{put_at};

use ax_values::{Cell, ListOf};

/// A changed cell: what stands at the index afterwards.
#[derive(Drop)]
pub struct CellPut {
    pub index: u32,
    pub cell: Cell,
}

pub type CellPuts = ListOf<CellPut>;

/// Puts the item at a place of the list, or at its end where there is room.
pub(crate) fn put_at<T: Drop>(list: &mut Vec<T>, index: u32, item: T)
    requires within { index ≤ length list.old.items }
    requires room { index ≡ length list.old.items → vec_len list.old < vec_capacity list.old }
    ensures items { list.new.items ≡ put_at list.old.items index item }
    ensures capacity { vec_capacity list.new ≡ vec_capacity list.old }
{
    let at = index as usize;
    if at == list.len() {
        list.push_reserved(item);
    } else {
        list[at] = item;
    }
}
