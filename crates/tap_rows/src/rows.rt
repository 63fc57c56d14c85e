use nats_text::{Name, NoMemory, TextFault};
use std::alloc::Global;
use std::test::Fail;
use tap_row::{BoxedTap, CountTap, Notice, Stay, Tap, TapRow};

/// A tap that counts, and leaves at its second notice.
#[derive(Drop)]
struct Leaver {
    count: CountTap,
    told: bool,
    left: bool,
}

impl Leaver {
    fn new() -> Leaver {
        Leaver {
            count: CountTap::new(),
            told: false,
            left: false,
        }
    }
}

impl Tap for Leaver {
    ghost stands = { λ tap notices. ⟦<CountTap as Tap>⟧.stands tap.count notices };

    ghost has_left = { λ tap. tap.left };

    ghost says = { λ tap. ⟦<CountTap as Tap>⟧.says tap.count };

    fn tell(&mut self, notice: &Notice) -> Stay {
        self.count.tell(notice);
        self.left = self.told;
        self.told = true;
        if self.left { Stay::Leave } else { Stay::Keep }
    }

    fn line(&self, buf: &mut Vec<u8>) -> Result<(), NoMemory> {
        self.count.line(buf)
    }
}

fn name(alloc: Global, text: &[u8]) -> Result<Name, NoMemory> {
    Name::read(alloc, text).map_err(|_: TextFault| NoMemory)
}

fn stored(alloc: Global, seq: u64) -> Result<Notice, NoMemory> {
    Ok(Notice::Stored {
        stream: name(alloc, b"S")?,
        seq,
    })
}

fn tell(alloc: Global, row: &mut TapRow, seq: u64) -> Result<(), NoMemory> {
    let notice = stored(alloc, seq)?;
    row.tell(&notice);
    drop(notice);
    Ok(())
}

/// Whether the row's lines are these.
fn says(alloc: Global, row: &TapRow, lines: &[u8]) -> Result<bool, NoMemory> {
    let mut text = Vec::new(alloc);
    row.lines(&mut text)?;
    Ok(text.as_slice() == lines)
}

/// Whether the first leaves at its second notice, and the second hears all four.
fn first_leaves(alloc: Global, row: &mut TapRow) -> Result<bool, NoMemory> {
    tell(alloc, row, 1)?;
    let both = says(alloc, row, b"stored 1\nstored 1\n")?;
    tell(alloc, row, 2)?;
    let one = says(alloc, row, b"stored 2\n")?;
    tell(alloc, row, 3)?;
    tell(alloc, row, 4)?;
    let all = says(alloc, row, b"stored 4\n")?;
    Ok(both && one && all)
}

/// Whether the one that stays can be taken out, once.
fn second_goes(row: &mut TapRow) -> bool {
    let there = row.detach(0).is_some();
    let gone = row.detach(0).is_none();
    there && gone
}

#[test]
fn a_tap_that_leaves_is_told_no_more(rt: HostRuntime) -> Result<(), Fail> {
    let mut row = TapRow::new(rt.alloc());
    let first: BoxedTap = Box::new(rt.alloc(), Leaver::new())?;
    row.attach(first)?;
    let second: BoxedTap = Box::new(rt.alloc(), CountTap::new())?;
    row.attach(second)?;
    assert!(rt; first_leaves(rt.alloc(), &mut row)?);
    assert!(rt; second_goes(&mut row));
    Ok(())
}

/// Whether a count goes up by messages that are stored alone.
fn counts_stored(alloc: Global, count: &mut CountTap) -> Result<bool, NoMemory> {
    count.tell(&Notice::Removed {
        stream: name(alloc, b"S")?,
        count: 2,
    });
    count.tell(&Notice::Bound {
        stream: name(alloc, b"M")?,
        index: 0,
    });
    count.tell(&Notice::PostFull { held: 9 });
    let mut text = Vec::new(alloc);
    count.line(&mut text)?;
    Ok(text.as_slice() == b"stored 0\n".as_slice())
}

#[test]
fn other_notices_are_not_counted(rt: HostRuntime) -> Result<(), Fail> {
    let mut count = CountTap::new();
    assert!(rt; counts_stored(rt.alloc(), &mut count)?);
    Ok(())
}
