// The codes of errors.
ghost use Rattle.std.specs.Prelude.{◌≡◌, neg_ℤ, pos};

/// A body is no JSON (JSON-RPC 2.0, "Error object").
pub const PARSE_ERROR: i32 = -32700;

/// A body is no request, notification or response, or it comes at the wrong time (JSON-RPC 2.0, "Error
/// object").
pub const INVALID_REQUEST: i32 = -32600;

/// A request asks for a method that is not known (JSON-RPC 2.0, "Error object").
pub const METHOD_NOT_FOUND: i32 = -32601;

/// The parameters of a request are not of the shape that its method asks for (JSON-RPC 2.0, "Error
/// object").
pub const INVALID_PARAMS: i32 = -32602;

/// A request comes before `initialize` (Language Server Protocol 3.17, "ErrorCodes").
pub const SERVER_NOT_INITIALIZED: i32 = -32002;

/// A request was of the right shape, and what it asks for cannot be done (Language Server Protocol 3.17,
/// "ErrorCodes").
pub const REQUEST_FAILED: i32 = -32803;

/// The codes are the numbers that JSON-RPC 2.0 ("Error object") and the Language Server Protocol 3.17 ("ErrorCodes") fix.
pub fn error_codes()
    ensures parse_error { PARSE_ERROR ≡ neg_ℤ (pos 32700) }
    ensures invalid_request { INVALID_REQUEST ≡ neg_ℤ (pos 32600) }
    ensures method_not_found { METHOD_NOT_FOUND ≡ neg_ℤ (pos 32601) }
    ensures invalid_params { INVALID_PARAMS ≡ neg_ℤ (pos 32602) }
    ensures server_not_initialized { SERVER_NOT_INITIALIZED ≡ neg_ℤ (pos 32002) }
    ensures request_failed { REQUEST_FAILED ≡ neg_ℤ (pos 32803) }
{}
