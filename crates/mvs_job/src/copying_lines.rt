//! Copies of what a line says, and of its request.

ghost use Rattle.std.specs.Prelude.{◌≡◌};
ghost use Rattle.job_script.specs.Resolving.{IsAccess, IsObtain, IsOfPool, IsOfTask, IsRelease};
ghost use Rattle.mvs_job.specs.Copying.{IsOfCells, IsOfStorage};

use mvs_model::line::{Line, SourceRequest, Statement};
use mvs_model::request::Request;

// Returns a copy of a request that obtains storage.
fn copy_obtain(written: &SourceRequest) -> SourceRequest
    requires { IsObtain written.now }
    ensures { result ≡ written.now }
{
    match written {
        SourceRequest::Obtain {
            form,
            number,
            ask,
            variable,
            area,
        } => SourceRequest::Obtain {
            form: *form,
            number: *number,
            ask: *ask,
            variable: *variable,
            area: *area,
        },
        SourceRequest::ObtainList {
            form,
            number,
            lengths,
            start,
            areas,
        } => SourceRequest::ObtainList {
            form: *form,
            number: *number,
            lengths: lengths.copied(),
            start: *start,
            areas: areas.copied(),
        },
        SourceRequest::Release { .. }
        | SourceRequest::ReleaseArea { .. }
        | SourceRequest::ReleaseList { .. }
        | SourceRequest::ReleaseWhole { .. }
        | SourceRequest::Build { .. }
        | SourceRequest::Get { .. }
        | SourceRequest::Free { .. }
        | SourceRequest::Delete { .. }
        | SourceRequest::Attach { .. }
        | SourceRequest::Return
        | SourceRequest::Abend(_)
        | SourceRequest::Show { .. }
        | SourceRequest::Put { .. }
        | SourceRequest::Move { .. } => unreachable!(),
    }
}

// Returns a copy of a request that releases storage.
fn copy_release(written: &SourceRequest) -> SourceRequest
    requires { IsRelease written.now }
    ensures { result ≡ written.now }
{
    match written {
        SourceRequest::Release {
            form,
            number,
            location,
            len,
        } => SourceRequest::Release {
            form: *form,
            number: *number,
            location: *location,
            len: *len,
        },
        SourceRequest::ReleaseArea { form, number, area } => SourceRequest::ReleaseArea {
            form: *form,
            number: *number,
            area: *area,
        },
        SourceRequest::ReleaseList {
            form,
            number,
            locations,
            lengths,
        } => SourceRequest::ReleaseList {
            form: *form,
            number: *number,
            locations: locations.copied(),
            lengths: lengths.copied(),
        },
        SourceRequest::ReleaseWhole { form, number } => SourceRequest::ReleaseWhole {
            form: *form,
            number: *number,
        },
        SourceRequest::Obtain { .. }
        | SourceRequest::ObtainList { .. }
        | SourceRequest::Build { .. }
        | SourceRequest::Get { .. }
        | SourceRequest::Free { .. }
        | SourceRequest::Delete { .. }
        | SourceRequest::Attach { .. }
        | SourceRequest::Return
        | SourceRequest::Abend(_)
        | SourceRequest::Show { .. }
        | SourceRequest::Put { .. }
        | SourceRequest::Move { .. } => unreachable!(),
    }
}

// Returns a copy of a request for a cell pool.
fn copy_of_pool(written: &SourceRequest) -> SourceRequest
    requires { IsOfPool written.now }
    ensures { result ≡ written.now }
{
    match written {
        SourceRequest::Build {
            pool,
            number,
            size,
            primary,
            secondary,
            loc,
        } => SourceRequest::Build {
            pool: *pool,
            number: *number,
            size: *size,
            primary: *primary,
            secondary: *secondary,
            loc: *loc,
        },
        SourceRequest::Get {
            pool,
            conditional,
            cell,
        } => SourceRequest::Get {
            pool: *pool,
            conditional: *conditional,
            cell: *cell,
        },
        SourceRequest::Free { pool, cell } => SourceRequest::Free {
            pool: *pool,
            cell: *cell,
        },
        SourceRequest::Delete { pool } => SourceRequest::Delete { pool: *pool },
        SourceRequest::Obtain { .. }
        | SourceRequest::ObtainList { .. }
        | SourceRequest::Release { .. }
        | SourceRequest::ReleaseArea { .. }
        | SourceRequest::ReleaseList { .. }
        | SourceRequest::ReleaseWhole { .. }
        | SourceRequest::Attach { .. }
        | SourceRequest::Return
        | SourceRequest::Abend(_)
        | SourceRequest::Show { .. }
        | SourceRequest::Put { .. }
        | SourceRequest::Move { .. } => unreachable!(),
    }
}

// Returns a copy of a request of a task that begins or ends one.
fn copy_of_task(written: &SourceRequest) -> SourceRequest
    requires { IsOfTask written.now }
    ensures { result ≡ written.now }
{
    match written {
        SourceRequest::Attach {
            name,
            gifts,
            residence,
        } => SourceRequest::Attach {
            name: *name,
            gifts: *gifts,
            residence: *residence,
        },
        SourceRequest::Return => SourceRequest::Return,
        SourceRequest::Abend(code) => SourceRequest::Abend(*code),
        SourceRequest::Obtain { .. }
        | SourceRequest::ObtainList { .. }
        | SourceRequest::Release { .. }
        | SourceRequest::ReleaseArea { .. }
        | SourceRequest::ReleaseList { .. }
        | SourceRequest::ReleaseWhole { .. }
        | SourceRequest::Build { .. }
        | SourceRequest::Get { .. }
        | SourceRequest::Free { .. }
        | SourceRequest::Delete { .. }
        | SourceRequest::Show { .. }
        | SourceRequest::Put { .. }
        | SourceRequest::Move { .. } => unreachable!(),
    }
}

// Returns a copy of a request that reads or writes bytes.
fn copy_access(written: &SourceRequest) -> SourceRequest
    requires { IsAccess written.now }
    ensures { result ≡ written.now }
{
    match written {
        SourceRequest::Show { from, len } => SourceRequest::Show {
            from: *from,
            len: *len,
        },
        SourceRequest::Put { to, bytes } => SourceRequest::Put {
            to: *to,
            bytes: bytes.copied(),
        },
        SourceRequest::Move { to, from, len } => SourceRequest::Move {
            to: *to,
            from: *from,
            len: *len,
        },
        SourceRequest::Obtain { .. }
        | SourceRequest::ObtainList { .. }
        | SourceRequest::Release { .. }
        | SourceRequest::ReleaseArea { .. }
        | SourceRequest::ReleaseList { .. }
        | SourceRequest::ReleaseWhole { .. }
        | SourceRequest::Build { .. }
        | SourceRequest::Get { .. }
        | SourceRequest::Free { .. }
        | SourceRequest::Delete { .. }
        | SourceRequest::Attach { .. }
        | SourceRequest::Return
        | SourceRequest::Abend(_) => unreachable!(),
    }
}

// Returns a copy of a request as written.
fn copy_written(written: &SourceRequest) -> SourceRequest
    ensures { result ≡ written.now }
{
    match written {
        SourceRequest::Obtain { .. } | SourceRequest::ObtainList { .. } => copy_obtain(written),
        SourceRequest::Release { .. }
        | SourceRequest::ReleaseArea { .. }
        | SourceRequest::ReleaseList { .. }
        | SourceRequest::ReleaseWhole { .. } => copy_release(written),
        SourceRequest::Build { .. }
        | SourceRequest::Get { .. }
        | SourceRequest::Free { .. }
        | SourceRequest::Delete { .. } => copy_of_pool(written),
        SourceRequest::Attach { .. } | SourceRequest::Return | SourceRequest::Abend(_) => {
            copy_of_task(written)
        }
        SourceRequest::Show { .. } | SourceRequest::Put { .. } | SourceRequest::Move { .. } => {
            copy_access(written)
        }
    }
}

// Returns a copy of a statement.
fn copy_statement(statement: &Statement) -> Statement
    ensures { result ≡ statement.now }
{
    match statement {
        Statement::Region {
            below,
            above,
            fill,
            residence,
        } => Statement::Region {
            below: *below,
            above: *above,
            fill: *fill,
            residence: *residence,
        },
        Statement::Request(written) => Statement::Request(copy_written(written)),
        Statement::Where(name) => Statement::Where(*name),
        Statement::ReportSubpools => Statement::ReportSubpools,
        Statement::ReportMap => Statement::ReportMap,
    }
}

/// Returns a copy of what a line says.
pub(crate) fn copy_line(read: &Line) -> Line
    ensures { result ≡ read.now }
{
    match read {
        Line::Nothing => Line::Nothing,
        Line::Statement(task, statement) => Line::Statement(*task, copy_statement(statement)),
    }
}

// Returns a copy of a request that obtains or releases storage.
fn copy_storage_request(request: &Request) -> Request
    requires { IsOfStorage request.now }
    ensures { result ≡ request.now }
{
    match request {
        Request::Obtain { form, number, ask } => Request::Obtain {
            form: *form,
            number: *number,
            ask: *ask,
        },
        Request::ObtainList {
            form,
            number,
            lengths,
            start,
        } => Request::ObtainList {
            form: *form,
            number: *number,
            lengths: lengths.copied(),
            start: *start,
        },
        Request::Release {
            form,
            number,
            place,
        } => Request::Release {
            form: *form,
            number: *number,
            place: *place,
        },
        Request::ReleaseList {
            form,
            number,
            places,
        } => Request::ReleaseList {
            form: *form,
            number: *number,
            places: places.copied(),
        },
        Request::ReleaseWhole { form, number } => Request::ReleaseWhole {
            form: *form,
            number: *number,
        },
        Request::Build { .. }
        | Request::Get { .. }
        | Request::Free { .. }
        | Request::Delete { .. }
        | Request::Attach { .. }
        | Request::Return
        | Request::Abend(_)
        | Request::Show { .. }
        | Request::Put { .. }
        | Request::Move { .. } => unreachable!(),
    }
}

// Returns a copy of a request for a cell pool.
fn copy_pool_request(request: &Request) -> Request
    requires { IsOfCells request.now }
    ensures { result ≡ request.now }
{
    match request {
        Request::Build {
            pool,
            number,
            size,
            primary,
            secondary,
            loc,
        } => Request::Build {
            pool: *pool,
            number: *number,
            size: *size,
            primary: *primary,
            secondary: *secondary,
            loc: *loc,
        },
        Request::Get { pool, conditional } => Request::Get {
            pool: *pool,
            conditional: *conditional,
        },
        Request::Free { pool, cell } => Request::Free {
            pool: *pool,
            cell: *cell,
        },
        Request::Delete { pool } => Request::Delete { pool: *pool },
        Request::Obtain { .. }
        | Request::ObtainList { .. }
        | Request::Release { .. }
        | Request::ReleaseList { .. }
        | Request::ReleaseWhole { .. }
        | Request::Attach { .. }
        | Request::Return
        | Request::Abend(_)
        | Request::Show { .. }
        | Request::Put { .. }
        | Request::Move { .. } => unreachable!(),
    }
}

/// Returns a copy of a request.
pub(crate) fn copy_request(request: &Request) -> Request
    ensures { result ≡ request.now }
{
    match request {
        Request::Obtain { .. }
        | Request::ObtainList { .. }
        | Request::Release { .. }
        | Request::ReleaseList { .. }
        | Request::ReleaseWhole { .. } => copy_storage_request(request),
        Request::Build { .. }
        | Request::Get { .. }
        | Request::Free { .. }
        | Request::Delete { .. } => copy_pool_request(request),
        Request::Attach {
            name,
            gifts,
            residence,
        } => Request::Attach {
            name: *name,
            gifts: *gifts,
            residence: *residence,
        },
        Request::Return => Request::Return,
        Request::Abend(code) => Request::Abend(*code),
        Request::Show { from, len } => Request::Show {
            from: *from,
            len: *len,
        },
        Request::Put { to, bytes } => Request::Put {
            to: *to,
            bytes: bytes.copied(),
        },
        Request::Move { to, from, len } => Request::Move {
            to: *to,
            from: *from,
            len: *len,
        },
    }
}
