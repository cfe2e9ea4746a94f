//! What the whole of a topology text is refused for, as a sentence.

use crate::doubles::Double;
use crate::faults::{MAX_FAULTS, push_line, push_more};
use crate::lack::{Lack, Lacking};
use crate::line::table_line;
use crate::pieces::{Appended, Piece, push};
use crate::sentence::push_meant;
use crate::whole::{WholeFault, whole_fault};
use nm_base::PartNo;
use nm_base::limits::{MAX_CHANNELS, MAX_ROUTES_OF_NODE};
use nm_topology::Refusal;
use nm_topology::keys::array::Array;
use nm_topology::keys::key::TableKey;
use nm_topology::names::{Named, names_of};
use nm_topology::parse::document::Document;
use nm_topology::parse::sources::{NamedTraffic, SourceTable};
use std::alloc::Global;

/// The name of a node or of an interface, by its number.
fn name_of<T: Named>(items: &[T], number: usize) -> &str {
    match items.get(number) {
        Some(item) => item.name(),
        None => "",
    }
}

/// The node that a table names, by the table's number.
fn node_of(document: &Document, array: Array, number: usize) -> &str {
    match array {
        Array::Route => match document.routes.get(number) {
            Some(table) => table.node.as_str(),
            None => "",
        },
        Array::Source => match document.sources.get(number) {
            Some(table) => table.node.as_str(),
            None => "",
        },
        _ => match document.ifaces.get(number) {
            Some(table) => table.node.as_str(),
            None => "",
        },
    }
}

/// The interface by which packets of a source leave.
fn via_of_source(source: &SourceTable) -> &str {
    match &source.traffic {
        NamedTraffic::Raw(raw) => raw.via.as_str(),
        _ => "",
    }
}

/// The interface that a table names at a key.
fn iface_of(document: &Document, lacking: Lacking) -> &str {
    let number = lacking.number;
    match lacking.array {
        Array::Link => match (document.links.get(number), lacking.lack) {
            (Some(table), Lack::Iface(TableKey::A)) => table.a.as_str(),
            (Some(table), _) => table.b.as_str(),
            (None, _) => "",
        },
        Array::Source => match document.sources.get(number) {
            Some(table) => via_of_source(table),
            None => "",
        },
        _ => match document.routes.get(number) {
            Some(table) => table.via.as_str(),
            None => "",
        },
    }
}

/// The node that has the interface of this name.
fn owner_of<'a>(document: &'a Document, iface: &str) -> &'a str {
    for table in &document.ifaces {
        if table.name.as_str() == iface {
            return table.node.as_str();
        }
    }
    ""
}

/// Appends a name in parentheses, after the thing that it names.
fn push_named<'a>(out: &mut Vec<u8>, what: &'a str, name: &'a str) -> Appended {
    push(
        out,
        &[
            Piece::Text(" ("),
            Piece::Text(what),
            Piece::Quoted(name),
            Piece::Text(")"),
        ],
    )
}

/// Appends which table of an array it is.
fn push_table_name(
    out: &mut Vec<u8>,
    document: &Document,
    array: Array,
    number: usize,
) -> Appended {
    push(
        out,
        &[
            Piece::Text(array.key().text()),
            Piece::Text(" "),
            Piece::Number(number as u64),
        ],
    )?;
    match array {
        Array::Node => push_named(out, "", name_of(&document.nodes, number)),
        Array::Iface => push_named(out, "", name_of(&document.ifaces, number)),
        Array::Link => Ok(()),
        Array::Route | Array::Source => {
            push_named(out, "node ", node_of(document, array, number))
        }
    }
}

/// Appends that two tables of an array have the same.
fn push_double(
    out: &mut Vec<u8>,
    document: &Document,
    array: Array,
    double: Double,
    same: &[Piece],
) -> Appended {
    push_table_name(out, document, array, double.second)?;
    push(out, &[Piece::Text(": ")])?;
    push_table_name(out, document, array, double.first)?;
    push(out, same)
}

/// Appends that there is nothing of this name; and that it is the name of something else, or which
/// of those that are known may have been meant.
fn push_none<'a>(
    out: &mut Vec<u8>,
    kind: &'a str,
    name: &'a str,
    known: &[&str],
    others: &[&str],
    other: &'a str,
) -> Appended {
    push(
        out,
        &[
            Piece::Text("there is no "),
            Piece::Text(kind),
            Piece::Text(" "),
            Piece::Quoted(name),
        ],
    )?;
    if others.iter().any(|there| *there == name) {
        return push(
            out,
            &[Piece::Text("; that is the name of "), Piece::Text(other)],
        );
    }
    push_meant(out, name, known)
}

/// Appends that there is no node, or no interface, of the name that a table has there.
fn push_no_such(
    alloc: Global,
    out: &mut Vec<u8>,
    document: &Document,
    lacking: Lacking,
) -> Appended {
    let nodes = names_of(alloc, &document.nodes)?;
    let ifaces = names_of(alloc, &document.ifaces)?;
    match lacking.lack {
        Lack::Node => {
            let name = node_of(document, lacking.array, lacking.number);
            push_none(out, "node", name, &nodes, &ifaces, "an interface")
        }
        _ => {
            let name = iface_of(document, lacking);
            push_none(out, "interface", name, &ifaces, &nodes, "a node")
        }
    }
}

/// Appends what a table names that is not there.
fn push_lack(alloc: Global, out: &mut Vec<u8>, document: &Document, lacking: Lacking) -> Appended {
    push_table_name(out, document, lacking.array, lacking.number)?;
    push(out, &[Piece::Text(": ")])?;
    match lacking.lack {
        Lack::Node | Lack::Iface(_) => push_no_such(alloc, out, document, lacking),
        Lack::Own => {
            let name = iface_of(document, lacking);
            push(
                out,
                &[
                    Piece::Text("via "),
                    Piece::Quoted(name),
                    Piece::Text(" is an interface of node "),
                    Piece::Quoted(owner_of(document, name)),
                ],
            )
        }
    }
}

/// Appends the links that name an interface, each with its line, if that is found.
fn push_links_of(out: &mut Vec<u8>, text: &str, document: &Document, iface: &str) -> Appended {
    let mut before = ": link ";
    for (number, link) in document.links.iter().enumerate() {
        if link.a.as_str() != iface && link.b.as_str() != iface {
            continue;
        }
        push(out, &[Piece::Text(before), Piece::Number(number as u64)])?;
        let key = if link.a.as_str() == iface {
            TableKey::A
        } else {
            TableKey::B
        };
        if let Some(line) = table_line(text, Array::Link.key().text(), number, key.text()) {
            push(
                out,
                &[
                    Piece::Text(" (line "),
                    Piece::Number(line),
                    Piece::Text(")"),
                ],
            )?;
        }
        before = ", link ";
    }
    Ok(())
}

/// Appends how many ends of links name an interface, and of which.
fn push_ends(
    out: &mut Vec<u8>,
    text: &str,
    document: &Document,
    iface: usize,
    ends: usize,
) -> Appended {
    push_table_name(out, document, Array::Iface, iface)?;
    if ends == 0 {
        return push(
            out,
            &[Piece::Text(": no end of a link names it, and one has to")],
        );
    }
    push(
        out,
        &[
            Piece::Text(": "),
            Piece::Number(ends as u64),
            Piece::Text(" ends of links name it, and one has to"),
        ],
    )?;
    push_links_of(out, text, document, name_of(&document.ifaces, iface))
}

/// Appends what two routes of a node have in common.
fn push_double_route(out: &mut Vec<u8>, document: &Document, double: Double) -> Appended {
    let Some(table) = document.routes.get(double.second) else {
        return Ok(());
    };
    let to = table.to;
    push_double(
        out,
        document,
        Array::Route,
        double,
        &[
            Piece::Text(" leads to the same prefix, "),
            Piece::Address(to.address),
            Piece::Text("/"),
            Piece::Number(to.length as u64),
        ],
    )
}

/// Appends the address that two interfaces have.
fn push_double_address(out: &mut Vec<u8>, document: &Document, double: Double) -> Appended {
    let Some(table) = document.ifaces.get(double.second) else {
        return Ok(());
    };
    push_double(
        out,
        document,
        Array::Iface,
        double,
        &[
            Piece::Text(" has the same address, "),
            Piece::Address(table.address),
        ],
    )
}

/// Appends that there are too many of something.
fn push_many(out: &mut Vec<u8>, count: usize, what: &str, limit: usize) -> Appended {
    push(
        out,
        &[
            Piece::Number(count as u64),
            Piece::Text(what),
            Piece::Number(limit as u64),
        ],
    )
}

/// Appends that a link between two partitions delays by nothing.
fn push_cut(out: &mut Vec<u8>, link: usize, a: PartNo, b: PartNo) -> Appended {
    push(
        out,
        &[
            Piece::Text("link "),
            Piece::Number(link as u64),
            Piece::Text(": its delay is 0 and its ends lie in partitions "),
            Piece::Number(a.number() as u64),
            Piece::Text(" and "),
            Piece::Number(b.number() as u64),
            Piece::Text(", between which it has to be 1 at least"),
        ],
    )
}

/// The key at which a table names what is not there.
fn key_of_lack(lack: Lack) -> TableKey {
    match lack {
        Lack::Node => TableKey::Node,
        Lack::Iface(key) => key,
        Lack::Own => TableKey::Via,
    }
}

/// The line of a table that names what is not there.
fn line_of_lack(text: &str, lacking: &Lacking) -> Option<u64> {
    let key = key_of_lack(lacking.lack);
    table_line(text, lacking.array.key().text(), lacking.number, key.text())
}

/// Appends what tables name that is not there, a line each; the first line is begun already. At
/// most 20, and how many more there are.
fn push_lacks(
    alloc: Global,
    out: &mut Vec<u8>,
    text: &str,
    document: &Document,
    lacking: &[Lacking],
) -> Appended {
    for (place, lack) in lacking.iter().take(MAX_FAULTS).enumerate() {
        if place > 0 {
            out.push(b'\n')?;
            push_line(out, line_of_lack(text, lack))?;
        }
        push_lack(alloc, out, document, *lack)?;
    }
    push_more(out, lacking.len())
}

/// The line of what the whole is refused for.
fn line_of_fault(text: &str, fault: &WholeFault) -> Option<u64> {
    let (array, number, key) = match fault {
        WholeFault::DoubleName { array, double } => (*array, double.second, TableKey::Name),
        WholeFault::NoSuch(lacking) => return line_of_lack(text, lacking.first()?),
        WholeFault::IfaceUse { iface, .. } => (Array::Iface, *iface, TableKey::Name),
        WholeFault::DoubleAddress(double) => (Array::Iface, double.second, TableKey::Address),
        WholeFault::DoubleRoute(double) => (Array::Route, double.second, TableKey::To),
        WholeFault::ManyRoutes { node, .. } => (Array::Node, *node, TableKey::Name),
        WholeFault::ManyChannels(_) => return None,
        WholeFault::CutDelay { link, .. } => (Array::Link, *link, TableKey::Delay),
    };
    table_line(text, array.key().text(), number, key.text())
}

/// Appends what the whole is refused for.
fn push_fault(
    alloc: Global,
    out: &mut Vec<u8>,
    text: &str,
    document: &Document,
    fault: &WholeFault,
) -> Appended {
    match fault {
        WholeFault::DoubleName { array, double } => push_double(
            out,
            document,
            *array,
            *double,
            &[Piece::Text(" has the same name")],
        ),
        WholeFault::NoSuch(lacking) => push_lacks(alloc, out, text, document, lacking),
        WholeFault::IfaceUse { iface, ends } => push_ends(out, text, document, *iface, *ends),
        WholeFault::DoubleAddress(double) => push_double_address(out, document, *double),
        WholeFault::DoubleRoute(double) => push_double_route(out, document, *double),
        WholeFault::ManyRoutes { node, count } => {
            push_table_name(out, document, Array::Node, *node)?;
            push(out, &[Piece::Text(": it has ")])?;
            push_many(out, *count, " routes, and may have ", MAX_ROUTES_OF_NODE)
        }
        WholeFault::ManyChannels(count) => {
            push(
                out,
                &[Piece::Text("top: the links between partitions make ")],
            )?;
            push_many(out, *count, " channels, and there may be ", MAX_CHANNELS)
        }
        WholeFault::CutDelay { link, a, b } => push_cut(out, *link, *a, *b),
    }
}

/// Appends what a document is refused for after all its tables are read. If no place is found, it
/// is the number of the refusal: that there always is a place is not proved.
pub fn push_whole_fault(
    alloc: Global,
    out: &mut Vec<u8>,
    text: &str,
    document: &Document,
    refusal: Refusal,
) -> Appended {
    match whole_fault(alloc, document)? {
        Some(fault) => {
            push_line(out, line_of_fault(text, &fault))?;
            push_fault(alloc, out, text, document, &fault)
        }
        None => push(
            out,
            &[
                Piece::Text("top: refusal "),
                Piece::Number(refusal.number() as u64),
            ],
        ),
    }
}
