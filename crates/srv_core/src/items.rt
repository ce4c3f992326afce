//! One item of a connection, and the items of a piece.
ghost use Rattle.std.specs.Prelude.{◌≡◌, OnErr, OnOk};
ghost use Rattle.std.specs.Option.{option_map};
ghost use Rattle.sm_live.specs.Sessions.{session_at, told};
ghost use Rattle.srv_state.specs.Seen.{server_state_of, step_of};
ghost use Rattle.srv_state.specs.Steps.{acted};
ghost use Rattle.srv_core.specs.Table.{after_item, after_items, at_item, at_open, at_word};
ghost use Rattle.srv_core.specs.Taken.{HasTaken};
ghost use Rattle.srv_state.specs.Words;
ghost use Rattle.xml_writer.specs.Items.{written_item};

use crate::ready::on_ready_or_bound;
use base_io::NoMemory;
use srv_state::{ServerContext, Stage, Standing, Word, word_of};
use xml_framer::{Item, Items};
use xml_trees::Tree;

// An element, by where the connection stands.
fn on_word(
    context: &mut ServerContext,
    conn: u64,
    word: &Word,
    standing: &Standing,
) -> Result<(), NoMemory>
    ensures ok { OnOk result (step_of context.new ≡ acted written_item (at_word written_item conn word.now standing.now.stage standing.now (server_state_of context.old)) (step_of context.old)) }
    ensures err { OnErr result (step_of context.new ≡ step_of context.old) }
{
    match standing.stage {
        Stage::Login => context.on_login(conn, word, standing),
        Stage::Challenge => context.on_challenge(conn, word, standing),
        Stage::Ready { account } => on_ready_or_bound(context, conn, account, word, standing),
        _ => context.on_any(conn, word, standing),
    }
}

// An element, which is read first.
fn on_element(
    context: &mut ServerContext,
    conn: u64,
    tree: Tree,
    standing: &Standing,
) -> Result<(), NoMemory>
    ensures ok { OnOk result (step_of context.new ≡ acted written_item (at_word written_item conn (Words.word_of tree) standing.now.stage standing.now (server_state_of context.old)) (step_of context.old)) }
    ensures err { OnErr result (step_of context.new ≡ step_of context.old) }
{
    let word = word_of(context.alloc, tree)?;
    on_word(context, conn, &word, standing)
}

// An item of a connection that stands here.
fn on_open_item(
    context: &mut ServerContext,
    conn: u64,
    item: Item,
    standing: &Standing,
) -> Result<(), NoMemory>
    ensures ok { OnOk result (step_of context.new ≡ acted written_item (at_item written_item conn item standing.now (server_state_of context.old)) (step_of context.old)) }
    ensures err { OnErr result (step_of context.new ≡ step_of context.old) }
{
    match item {
        Item::Header { header, .. } => context.on_header(conn, &header, standing),
        Item::Element(tree) => on_element(context, conn, tree, standing),
        Item::Footer => context.close(conn),
    }
}

// An item of a connection. It does nothing where the connection isn't open.
fn on_item(context: &mut ServerContext, conn: u64, item: Item) -> Result<(), NoMemory>
    ensures ok { OnOk result (step_of context.new ≡ after_item written_item conn item (step_of context.old)) }
    ensures err { OnErr result (step_of context.new ≡ step_of context.old) }
{
    match context.standing(conn) {
        Some(standing) => on_open_item(context, conn, item, &standing),
        None => Ok(()),
    }
}

// The items of a piece, in order, until memory runs out.
pub(crate) fn on_items(context: &mut ServerContext, conn: u64, items: Items) -> Result<(), NoMemory>
    ensures ok { OnOk result (step_of context.new ≡ after_items written_item conn items.items (step_of context.old)) }
    ensures err { OnErr result (HasTaken conn items.items (step_of context.old) (step_of context.new)) }
{
    for item in items.into_items() {
        on_item(context, conn, item)?;
    }
    Ok(())
}
