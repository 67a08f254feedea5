//! Draws at a board by one seat and by several, and how seats are split and joined.

ghost use Rattle.std.specs.Prelude.{◌≡◌, ◌≤◌, ◌<◌};
ghost use Rattle.work_board.specs.Boards.{IsSeatOfBoard};
ghost use Rattle.example_rounds.specs.Seats.{SameSeat};

use std::alloc::Global;
use std::process::Abort;
use std::test::Fail;
use work_board::{Board, Seat};

/// The next number, unless the seat has found that there is nothing left.
fn next(board: &Board, seat: &mut Seat) -> Option<u32>
    requires { IsSeatOfBoard board.now seat.old }
    ensures { SameSeat seat.old seat.new }
{
    if seat.told() {
        return None;
    }
    board.draw(seat)
}

/// One seat draws every number once, in order, and then finds that there is nothing left.
fn draw_alone<R: Abort>(rt: &R, board: &Board, seat: &mut Seat)
    requires { IsSeatOfBoard board.now seat.old }
    ensures { SameSeat seat.old seat.new }
{
    for number in 0..3 {
        see_drawn(rt, next(board, seat), Some(number));
        assert!(rt; !seat.told());
    }
    see_drawn(rt, next(board, seat), None);
    assert!(rt; seat.told());
}

fn see_drawn<R: Abort>(rt: &R, drawn: Option<u32>, wanted: Option<u32>) {
    assert_eq!(rt; drawn, wanted);
}

fn try_alone<R: Abort>(rt: &R, alloc: Global) -> Result<(), Fail> {
    let (board, mut seat) = Board::new(alloc, 3, 1)?;
    draw_alone(rt, &board, &mut seat);
    if seat.told() {
        board.close(seat);
    }
    Ok(())
}

/// Two seats draw in turn; each number is drawn once.
fn try_in_turn<R: Abort>(rt: &R, board: &Board, first: &mut Seat, second: &mut Seat)
    requires first { IsSeatOfBoard board.now first.old }
    requires second { IsSeatOfBoard board.now second.old }
    ensures first { SameSeat first.old first.new }
    ensures second { SameSeat second.old second.new }
{
    see_drawn(rt, next(board, first), Some(0));
    see_drawn(rt, next(board, second), Some(1));
    see_drawn(rt, next(board, first), Some(2));
    see_drawn(rt, next(board, second), None);
    assert!(rt; second.told() && !first.told());
}

/// A second seat is split from the first, and joined into it again.
fn try_together<R: Abort>(rt: &R, alloc: Global) -> Result<(), Fail> {
    let (board, mut first) = Board::new(alloc, 3, 2)?;
    let mut second = board.split(&mut first);
    assert!(rt; first.out() == 1 && first.to_split() == 0);
    try_in_turn(rt, &board, &mut first, &mut second);
    board.join(&mut first, second);
    assert!(rt; first.out() == 0 && first.told());
    if first.told() {
        board.close(first);
    }
    Ok(())
}

#[test]
fn one_seat_draws(rt: HostRuntime) -> Result<(), Fail> {
    try_alone(&rt, rt.alloc())
}

#[test]
fn two_seats_draw(rt: HostRuntime) -> Result<(), Fail> {
    try_together(&rt, rt.alloc())
}
