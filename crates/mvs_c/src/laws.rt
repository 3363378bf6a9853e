//! What statements mean that are written for requests by values.

ghost use Rattle.mvs_c.specs.ListStatements.{ListStatementsAreRead};
ghost use Rattle.mvs_c.specs.Statements.{StatementsAreRead};

/// Shows that the statement of a request by values is read as that request.
pub fn statements_are_read()
    ensures { StatementsAreRead }
{}

/// Shows that the statement of a list request by values is read as that request.
pub fn list_statements_are_read()
    ensures { ListStatementsAreRead }
{}
