ghost use Rattle.print.specs.Printing.{Prints};
ghost use Rattle.audit.specs.Words.{metadata_lines};

use print::print::Printer;
use schema::sealed::SealedSchema;
use std::alloc::AllocError;
use view::view::View;
use view::view_metadata::ViewMetadata;
use view::view_update::ViewUpdate;

// A recorded schema, with its last-column-id, or none for one that was reused.
fn print_added_schema(
    printer: &mut Printer<'_>,
    schema: &SealedSchema,
    last_column_id: Option<i32>,
) -> Result<(), AllocError> {
    printer.words("add-schema ")?;
    printer.schema(schema)?;
    match last_column_id {
        Some(id) => write!(printer, " last-column-id {id}"),
        None => printer.words(" last-column-id none"),
    }
}

// A recorded change, as the statement that makes it.
fn print_change(
    printer: &mut Printer<'_>,
    change: &ViewUpdate<'_, SealedSchema>,
) -> Result<(), AllocError> {
    match change {
        ViewUpdate::AssignUuid { uuid } => {
            printer.words("assign-uuid ")?;
            printer.uuid(*uuid)
        }
        ViewUpdate::SetLocation { location } => {
            printer.words("set-location ")?;
            printer.text(*location)
        }
        ViewUpdate::AddSchema {
            schema,
            last_column_id,
        } => print_added_schema(printer, schema, *last_column_id),
        ViewUpdate::AddViewVersion { view_version } => {
            printer.words("add-version ")?;
            printer.version(view_version)
        }
        ViewUpdate::SetCurrentViewVersion { view_version_id } => {
            write!(printer, "set-current {view_version_id}")
        }
        ViewUpdate::SetProperties { updates } => {
            printer.words("set-properties ")?;
            printer.list(updates)
        }
        ViewUpdate::RemoveProperties { removals } => {
            printer.words("remove-properties ")?;
            printer.list(removals)
        }
    }
}

// The recorded changes, one to a line.
// Kept: a change is a type of view and `Printed` a trait of print, so that no `impl` of it can stand here for `lines`.
fn print_changes(
    printer: &mut Printer<'_>,
    changes: &[ViewUpdate<'_, SealedSchema>],
) -> Result<(), AllocError> {
    printer.words("# changes\n")?;
    for change in changes {
        print_change(printer, change)?;
        printer.words("\n")?;
    }
    Ok(())
}

// The lists of the metadata, one record to a line.
fn print_lists(
    printer: &mut Printer<'_>,
    metadata: &ViewMetadata<'_, '_, SealedSchema>,
) -> Result<(), AllocError>
    ensures { Prints printer.old result printer.new (metadata_lines printer.old.block.now metadata.now) }
{
    printer.lines("", metadata.schemas)?;
    printer.lines("", metadata.versions)?;
    printer.lines("", metadata.version_log)?;
    printer.lines("property ", metadata.properties)
}

// The metadata's own fields, as a start that could be opened.
fn print_open(
    printer: &mut Printer<'_>,
    metadata: &ViewMetadata<'_, '_, SealedSchema>,
) -> Result<(), AllocError> {
    write!(printer, "open {} uuid ", metadata.format_version)?;
    printer.uuid(metadata.uuid)?;
    printer.words(" location ")?;
    printer.text(metadata.location)?;
    writeln!(printer, " current {}", metadata.current_version_id)
}

// The built metadata and the recorded changes.
pub fn print_built(
    printer: &mut Printer<'_>,
    built: &View<'_, '_, '_, SealedSchema>,
) -> Result<(), AllocError> {
    let metadata = built.metadata();
    printer.words("# metadata\n")?;
    print_open(printer, &metadata)?;
    print_lists(printer, &metadata)?;
    print_changes(printer, built.changes())
}
