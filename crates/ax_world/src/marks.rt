ghost use Rattle.std.specs.Prelude.{◌≡◌, ◌+◌, ◌<◌, ◌≤◌, length, vec_len, vec_capacity, IsTrue};
ghost use Rattle.std.specs.List.Sorted.{IsBinarySearchResult, IsSearchInRange};
ghost use Rattle.ax_values.specs.Words.{item_cmp, put_rising, remove_rising, rises};
ghost use Rattle.ax_state.specs.WellFormed.{item_below};

use ax_values::ItemName;

/// Puts a mark among marks that rise, in the place of an equal one where it is there. It takes no memory.
pub(crate) fn put_mark(marks: &mut Vec<ItemName>, item: ItemName)
    requires rising { IsTrue (rises item_below marks.old.items) }
    requires room { vec_len marks.old < vec_capacity marks.old }
    ensures made { marks.new.items ≡ put_rising item_cmp item marks.old.items }
    ensures len { vec_len marks.new ≤ vec_len marks.old + 1 }
    ensures capacity { vec_capacity marks.old ≤ vec_capacity marks.new }
{
    match place_of(marks, &item) {
        Ok(place) => marks[place] = item,
        Err(place) => {
            let _ = marks.insert(place, item);
        }
    }
}

/// Removes the mark of an item among marks that rise, where it is there. It takes no memory.
pub(crate) fn remove_mark(marks: &mut Vec<ItemName>, item: &ItemName)
    requires rising { IsTrue (rises item_below marks.old.items) }
    ensures made { marks.new.items ≡ remove_rising item_cmp item.now marks.old.items }
    ensures len { vec_len marks.new ≤ vec_len marks.old }
    ensures capacity { vec_capacity marks.old ≤ vec_capacity marks.new }
{
    match place_of(marks, item) {
        Ok(place) => drop(marks.remove(place)),
        Err(_place) => {}
    }
}

/// Where the mark of an item stands, or else where it would stand.
fn place_of(marks: &[ItemName], item: &ItemName) -> Result<usize, usize>
    ensures bound { IsSearchInRange result (length marks.now) }
    ensures place { IsBinarySearchResult (λ mark. item_cmp mark item.now) marks.now result }
{
    marks.binary_search_by(|mark| mark.cmp(item))
}
