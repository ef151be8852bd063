#![tactic(auto)]

// What is lent to a call that fuses.
ghost use Rattle.std.specs.Prelude.{◌≡◌};
ghost use Rattle.fuse_lent.specs.Lent.{lends};

// Enough is lent for a room of so many corners.
pub fn is_lent(
    room: usize,
    answer: usize,
    rest: usize,
    spare: usize,
    dst: usize,
    held: usize,
    slots: usize,
    counts: usize,
    sizes: usize,
    seats: usize,
    lengths: usize,
    owners: usize,
    cells: usize,
    cuts: usize,
    runs: usize,
    keys: usize,
    begins: usize,
    ord: usize,
    ends: usize,
    marks: usize,
    out: usize,
    many: usize,
    shells: usize,
) -> bool
    ensures { result ≡ lends room answer rest spare dst held slots counts sizes seats lengths owners cells cuts runs keys begins ord ends marks out many shells }
{
    if 4294967296 < room {
        return false;
    }
    let floats = ((3 * room + 1984 <= rest) & (11 * room + 1664 <= spare))
        & (11 * room + 1664 <= dst);
    let list = (((room + 128 <= held) & (room + 128 <= slots)) & (room + 128 <= counts))
        & ((room < sizes) & (room < seats));
    let layout = ((room <= lengths) & (room <= owners)) & ((room <= cells) & (room < cuts));
    let sorting = ((3 * room <= runs) & (2 * room <= keys)) & ((room < begins) & (room <= ord));
    let bodies = ((room <= ends) & (room < marks))
        & (((room <= out) & (room <= many)) & (room <= shells));
    (room <= answer / 64) & ((floats & list) & (layout & (sorting & bodies)))
}
