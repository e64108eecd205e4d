// Writing over a part of a slice. A part that does not fit is left as it is.
#![tactic(auto)]

ghost use Rattle.std.specs.Prelude.{◌≡◌, length, replicate};
ghost use Rattle.slices.specs.Writes.{written, filled, closed_up};

// Writes `items` over the places from `at` on.
pub fn write<T: Copy>(places: &mut [T], at: usize, items: &[T])
    ensures { places.new ≡ written places.old at items.now }
{
    let wide = items.len();
    if wide <= places.len() && at <= places.len() - wide {
        places[at..at + wide].copy_from_slice(items);
    }
}

// Writes `item` from `from` up to `to`.
pub fn fill<T: Copy>(places: &mut [T], from: usize, to: usize, item: T)
    ensures { places.new ≡ filled places.old from to item }
{
    if from <= to && to <= places.len() {
        cover(&mut places[from..to], item);
    }
}

// Takes `width` places at `at` out of those before `end`: the later ones move down, and `item` fills those that are freed.
pub fn close_up<T: Copy>(places: &mut [T], at: usize, width: usize, end: usize, item: T)
    ensures { places.new ≡ closed_up places.old at width end item }
{
    if end <= places.len() && width <= end && at <= end - width {
        places.copy_within(at + width..end, at);
        cover(&mut places[end - width..end], item);
    }
}

// The library's `fill` asks that a clone cannot fail, which `Copy` does not say.
fn cover<T: Copy>(places: &mut [T], item: T)
    ensures { places.new ≡ replicate (length places.old) item }
{
    for place in places.iter_mut() {
        *place = item;
    }
}
