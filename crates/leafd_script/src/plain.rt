ghost use Rattle.std.specs.Prelude.{◌≡◌};
ghost use Rattle.nats_text.specs.Pieces.{views};
ghost use Rattle.leafd_script.specs.Lines.{GivesLine, IsLawful, change_form, plain_form, node_line, delete_line, delete_of, purge_line, purge_all, purge_matching, purge_below, clock_line, stream_named, alone};
ghost use Rattle.leafd_script.specs.declared.line.Line.TheVariants.{Expire, Show, Log};

use crate::words::{BAD_LINE, is_word, name_of, node_name_of, number_word, pattern_of};
use crate::{Line, LineFault};
use std::alloc::Global;

pub fn plain_form(alloc: Global, verb: &[u8], args: &[&[u8]]) -> Result<Line, LineFault>
    ensures { GivesLine result (plain_form verb.now (views args.now)) }
{
    if is_word(verb, b"expire") {
        expire_line(alloc, args)
    } else if is_word(verb, b"show") {
        show_line(alloc, args)
    } else if is_word(verb, b"log") {
        log_line(alloc, args)
    } else if is_word(verb, b"settle") {
        alone(Line::Settle, args)
    } else if is_word(verb, b"heads") {
        alone(Line::Heads, args)
    } else if is_word(verb, b"quiet") {
        alone(Line::Quiet, args)
    } else {
        change_form(alloc, verb, args)
    }
}

fn expire_line(alloc: Global, args: &[&[u8]]) -> Result<Line, LineFault>
    ensures { GivesLine result (stream_named Expire (views args.now)) }
{
    let [node, name] = args else {
        return Err(BAD_LINE);
    };
    let node = name_of(alloc, node)?;
    let name = name_of(alloc, name)?;
    Ok(Line::Expire { node, name })
}

fn show_line(alloc: Global, args: &[&[u8]]) -> Result<Line, LineFault>
    ensures { GivesLine result (stream_named Show (views args.now)) }
{
    let [node, name] = args else {
        return Err(BAD_LINE);
    };
    let node = name_of(alloc, node)?;
    let name = name_of(alloc, name)?;
    Ok(Line::Show { node, name })
}

fn log_line(alloc: Global, args: &[&[u8]]) -> Result<Line, LineFault>
    ensures { GivesLine result (stream_named Log (views args.now)) }
{
    let [node, name] = args else {
        return Err(BAD_LINE);
    };
    let node = name_of(alloc, node)?;
    let name = name_of(alloc, name)?;
    Ok(Line::Log { node, name })
}

fn alone(line: Line, args: &[&[u8]]) -> Result<Line, LineFault>
    requires { IsLawful line }
    ensures { GivesLine result (alone line (views args.now)) }
{
    match args {
        [] => Ok(line),
        _ => Err(BAD_LINE),
    }
}

fn change_form(alloc: Global, verb: &[u8], args: &[&[u8]]) -> Result<Line, LineFault>
    ensures { GivesLine result (change_form verb.now (views args.now)) }
{
    if is_word(verb, b"node") {
        node_line(alloc, args)
    } else if is_word(verb, b"del") {
        delete_line(alloc, args)
    } else if is_word(verb, b"purge") {
        purge_line(alloc, args)
    } else if is_word(verb, b"clock") {
        clock_line(args)
    } else {
        Err(BAD_LINE)
    }
}

fn node_line(alloc: Global, args: &[&[u8]]) -> Result<Line, LineFault>
    ensures { GivesLine result (node_line (views args.now)) }
{
    let [node] = args else {
        return Err(BAD_LINE);
    };
    let node = node_name_of(alloc, node)?;
    Ok(Line::Node { node })
}

fn delete_line(alloc: Global, args: &[&[u8]]) -> Result<Line, LineFault>
    ensures { GivesLine result (delete_line (views args.now)) }
{
    if let [node, name, seq] = args {
        return delete_of(alloc, node, name, seq);
    }
    Err(BAD_LINE)
}

fn delete_of(alloc: Global, node: &[u8], name: &[u8], seq: &[u8]) -> Result<Line, LineFault>
    ensures { GivesLine result (delete_of node.now name.now seq.now) }
{
    let node = name_of(alloc, node)?;
    let name = name_of(alloc, name)?;
    let seq = number_word(seq)?;
    Ok(Line::Delete { node, name, seq })
}

fn purge_line(alloc: Global, args: &[&[u8]]) -> Result<Line, LineFault>
    ensures { GivesLine result (purge_line (views args.now)) }
{
    match args {
        [node, name] => purge_all(alloc, node, name),
        [node, name, pattern] => purge_matching(alloc, node, name, pattern),
        [node, name, pattern, below] => purge_below(alloc, node, name, pattern, below),
        _ => Err(BAD_LINE),
    }
}

fn purge_all(alloc: Global, node: &[u8], name: &[u8]) -> Result<Line, LineFault>
    ensures { GivesLine result (purge_all node.now name.now) }
{
    let node = name_of(alloc, node)?;
    let name = name_of(alloc, name)?;
    Ok(Line::Purge {
        node,
        name,
        pattern: None,
        below: None,
    })
}

fn purge_matching(
    alloc: Global,
    node: &[u8],
    name: &[u8],
    pattern: &[u8],
) -> Result<Line, LineFault>
    ensures { GivesLine result (purge_matching node.now name.now pattern.now) }
{
    let node = name_of(alloc, node)?;
    let name = name_of(alloc, name)?;
    let pattern = pattern_of(alloc, pattern)?;
    Ok(Line::Purge {
        node,
        name,
        pattern: Some(pattern),
        below: None,
    })
}

fn purge_below(
    alloc: Global,
    node: &[u8],
    name: &[u8],
    pattern: &[u8],
    below: &[u8],
) -> Result<Line, LineFault>
    ensures { GivesLine result (purge_below node.now name.now pattern.now below.now) }
{
    let node = name_of(alloc, node)?;
    let name = name_of(alloc, name)?;
    let pattern = pattern_of(alloc, pattern)?;
    let below = number_word(below)?;
    Ok(Line::Purge {
        node,
        name,
        pattern: Some(pattern),
        below: Some(below),
    })
}

fn clock_line(args: &[&[u8]]) -> Result<Line, LineFault>
    ensures { GivesLine result (clock_line (views args.now)) }
{
    let [moment] = args else {
        return Err(BAD_LINE);
    };
    let moment = number_word(moment)?;
    Ok(Line::Clock { moment })
}
