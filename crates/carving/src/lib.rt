#![tactic(auto)]

// The remainder of a cell, cut by plane after plane, and the pieces that fall off. The remainder lives in a room of its own,
// `rest` with `held`; a cut of it is made in a second room, `spare` with `slots`, and copied back. The pieces lie in `dst`,
// `counts` and `sizes`.
ghost use Rattle.std.specs.Prelude.{◌≡◌, true, length};
ghost use Rattle.refusal.specs.Outcome.{then};
ghost use Rattle.room.specs.Rooms.{cell_at, counts_at};
ghost use Rattle.stack.specs.Stacks.{list_at, Holds, Places, Work};
ghost use Rattle.carving.specs.Carvings.{carve_on, carve_part, clip_part};
ghost use Rattle.carving.specs.Rests.{Sits, Left, Place, Keeps, Inside, carving_at, Ready, Carves, ended};

use cell::Kept;
use refusal::Refusal;
use space::{Plane, Precision};
use stack::Stack;

// What is left of the first cell: whether there is any, and how many faces it has.
#[derive(Clone, Copy)]
pub struct Rest {
    pub verdict: Result<(), Refusal>,
    pub some: bool,
    pub faces: usize,
}

// The remainder, and the pieces outside so far.
#[derive(Clone, Copy)]
pub struct Carved {
    pub rest: Rest,
    pub list: Stack,
}

// What a cut answers is the remainder now.
fn keep(
    p: Result<Option<Kept>, Refusal>,
    spare: &[f64],
    slots: &[u64],
    rest: &mut [f64],
    held: &mut [u64],
) -> Rest
    requires { Inside (length spare.now) (length slots.now) p × Inside (length rest.old) (length held.old) p }
    ensures { Keeps p result rest.old held.old spare.now slots.now rest.new held.new }
{
    match p {
        Ok(part) => match part {
            None => Rest {
                verdict: Ok(()),
                some: false,
                faces: 0,
            },
            Some(kept) => {
                let f = kept.faces;
                let n = kept.corners;
                stack::copy_front(spare, room::PLANE * f + 3 * n, rest);
                stack::copy_front(slots, f, held);
                Rest {
                    verdict: Ok(()),
                    some: true,
                    faces: f,
                }
            }
        },
        Err(e) => Rest {
            verdict: Err(e),
            some: false,
            faces: 0,
        },
    }
}

// The remainder is cut by one plane more.
pub fn cut_rest(
    t: Precision,
    limit: usize,
    plane: Plane,
    s: Rest,
    rest: &mut [f64],
    held: &mut [u64],
    spare: &mut [f64],
    slots: &mut [u64],
    face: &mut [f64],
    cap: &mut [f64],
    flat: &mut [f64],
    order: &mut [u64],
    chain: &mut [u64],
) -> Rest
    requires sits { s.some ≡ true → Sits s.faces rest.old held.old }
    requires place { Place limit rest.old held.old × Place limit spare.old slots.old × Work face.old cap.old flat.old order.old chain.old }
    ensures { Left (clip_part t limit plane) s result rest.old held.old rest.new held.new }
{
    let v = s.verdict;
    let some = s.some;
    let faces = s.faces;
    let Ok(()) = v else {
        return Rest {
            verdict: v,
            some: false,
            faces: 0,
        };
    };
    if !some {
        return s;
    }
    let p = clip::clip(
        t, limit, plane, rest, 0, held, 0, faces, spare, 0, slots, 0, face, cap, flat, order, chain,
    );
    keep(p, spare, slots, rest, held)
}

// The piece beyond a plane joins the list, then the remainder is cut by the plane.
fn carve_cell(
    t: Precision,
    limit: usize,
    plane: Plane,
    back: Plane,
    faces: usize,
    list: Stack,
    rest: &mut [f64],
    held: &mut [u64],
    spare: &mut [f64],
    slots: &mut [u64],
    dst: &mut [f64],
    counts: &mut [u64],
    sizes: &mut [u64],
    face: &mut [f64],
    cap: &mut [f64],
    flat: &mut [f64],
    order: &mut [u64],
    chain: &mut [u64],
) -> Carved
    requires sits { Sits faces rest.old held.old × Holds limit list dst.old counts.old sizes.old }
    requires place { Place limit rest.old held.old × Place limit spare.old slots.old × Places limit dst.old counts.old sizes.old × Work face.old cap.old flat.old order.old chain.old }
    ensures ready { Ready limit result rest.new held.new dst.new counts.new sizes.new }
    ensures sizes_after { carving_at result rest.new held.new dst.new counts.new sizes.new ≡ then (list_at list dst.old counts.old sizes.old) (carve_on t limit back plane (cell_at rest.old 0 (counts_at held.old 0 faces))) }
{
    let out = stack::add_part(
        t, limit, back, rest, 0, held, 0, faces, list, dst, counts, sizes, face, cap, flat, order,
        chain,
    );
    let v = out.verdict;
    let s = Rest {
        verdict: v,
        some: true,
        faces,
    };
    let left = cut_rest(
        t, limit, plane, s, rest, held, spare, slots, face, cap, flat, order, chain,
    );
    Carved {
        rest: left,
        list: out,
    }
}

// One plane of the second cell.
pub fn carve(
    t: Precision,
    limit: usize,
    plane: Plane,
    s: Carved,
    rest: &mut [f64],
    held: &mut [u64],
    spare: &mut [f64],
    slots: &mut [u64],
    dst: &mut [f64],
    counts: &mut [u64],
    sizes: &mut [u64],
    face: &mut [f64],
    cap: &mut [f64],
    flat: &mut [f64],
    order: &mut [u64],
    chain: &mut [u64],
) -> Carved
    requires ready { Ready limit s rest.old held.old dst.old counts.old sizes.old }
    requires place { Place limit rest.old held.old × Place limit spare.old slots.old × Places limit dst.old counts.old sizes.old × Work face.old cap.old flat.old order.old chain.old }
    ensures { Carves limit (λ x. carve_part t limit x.out x.rest plane) s result rest.old held.old dst.old counts.old sizes.old rest.new held.new dst.new counts.new sizes.new }
{
    let cur = s.rest;
    let list = s.list;
    let some = cur.some;
    let faces = cur.faces;
    if !some {
        return s;
    }
    let o = side::opposite(plane, t);
    match o {
        Ok(back) => carve_cell(
            t, limit, plane, back, faces, list, rest, held, spare, slots, dst, counts, sizes, face,
            cap, flat, order, chain,
        ),
        Err(e) => Carved {
            rest: Rest {
                verdict: Err(e),
                some: false,
                faces: 0,
            },
            list,
        },
    }
}

// The list, unless something was refused.
pub fn end(s: Carved) -> Stack
    ensures { result ≡ ended s.list.verdict s.rest.verdict s.list }
{
    let cur = s.rest;
    let list = s.list;
    let v = list.verdict;
    let w = cur.verdict;
    let Ok(()) = v else {
        return list;
    };
    match w {
        Ok(()) => list,
        Err(e) => stack::gone(e),
    }
}
