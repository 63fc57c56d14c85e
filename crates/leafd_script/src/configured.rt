ghost use Rattle.std.specs.Prelude.{◌≡◌, false};
ghost use Rattle.std.specs.Str.{bytes_eq};
ghost use Rattle.nats_text.specs.Pieces.{views};
ghost use Rattle.leafd_script.specs.Lines.{GivesLine, mirror_line, mirror_of, stream_line, stream_of, update_line, update_of};

use crate::options::{
    changes_of, checked, config_of, fits_mirror, fits_stream, fits_update, has_later, origin_of,
    subjects_of, window_of,
};
use crate::words::{BAD_LINE, NOT_YET, is_word, name_of};
use crate::{Line, LineFault};
use nats_text::List;
use std::alloc::Global;
use stream_fold::Copies;

pub fn stream_line(alloc: Global, args: &[&[u8]]) -> Result<Line, LineFault>
    ensures { GivesLine result (stream_line (views args.now)) }
{
    let [node, name, options @ ..] = args else {
        return Err(BAD_LINE);
    };
    if has_later(options) {
        Err(NOT_YET)
    } else if fits_stream(args, options) {
        stream_of(alloc, node, name, options)
    } else {
        Err(BAD_LINE)
    }
}

fn stream_of(alloc: Global, node: &[u8], name: &[u8], options: &[&[u8]]) -> Result<Line, LineFault>
    ensures { GivesLine result (stream_of node.now name.now (views options.now)) }
{
    let node = name_of(alloc, node)?;
    let stream = name_of(alloc, name)?;
    let changes = changes_of(options)?;
    let window = window_of(options)?;
    let subjects = subjects_of(alloc, name, options)?;
    let config = config_of(stream, subjects, changes, window, Copies::Nothing);
    let config = checked(alloc, config)?;
    Ok(Line::Stream { node, config })
}

pub fn mirror_line(alloc: Global, args: &[&[u8]]) -> Result<Line, LineFault>
    ensures { GivesLine result (mirror_line (views args.now)) }
{
    let [node, name, other, origin, options @ ..] = args else {
        return Err(BAD_LINE);
    };
    if is_word(node, other) || has_later(options) {
        Err(NOT_YET)
    } else if fits_mirror(args, options) {
        mirror_of(alloc, node, name, other, origin, options)
    } else {
        Err(BAD_LINE)
    }
}

fn mirror_of(
    alloc: Global,
    node: &[u8],
    name: &[u8],
    other: &[u8],
    origin: &[u8],
    options: &[&[u8]],
) -> Result<Line, LineFault>
    requires { bytes_eq node.now other.now ≡ false }
    ensures { GivesLine result (mirror_of node.now name.now other.now origin.now (views options.now)) }
{
    let node = name_of(alloc, node)?;
    let name = name_of(alloc, name)?;
    let other = name_of(alloc, other)?;
    let origin = name_of(alloc, origin)?;
    let changes = changes_of(options)?;
    let window = window_of(options)?;
    let copies = Copies::Mirror(origin_of(alloc, other, origin));
    let config = config_of(name, List::new(alloc), changes, window, copies);
    let config = checked(alloc, config)?;
    Ok(Line::Mirror { node, config })
}

pub fn update_line(alloc: Global, args: &[&[u8]]) -> Result<Line, LineFault>
    ensures { GivesLine result (update_line (views args.now)) }
{
    let [node, name, options @ ..] = args else {
        return Err(BAD_LINE);
    };
    if has_later(options) {
        Err(NOT_YET)
    } else if fits_update(args, options) {
        update_of(alloc, node, name, options)
    } else {
        Err(BAD_LINE)
    }
}

fn update_of(alloc: Global, node: &[u8], name: &[u8], options: &[&[u8]]) -> Result<Line, LineFault>
    ensures { GivesLine result (update_of node.now name.now (views options.now)) }
{
    let node = name_of(alloc, node)?;
    let name = name_of(alloc, name)?;
    let changes = changes_of(options)?;
    Ok(Line::Update {
        node,
        name,
        changes,
    })
}
