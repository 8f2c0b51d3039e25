//! The names of attributes in the stable semantic conventions of OpenTelemetry, as in the module
//! `attribute` of the Rust crate `opentelemetry-semantic-conventions`.
//!
//! A value is a string if its constant says nothing else. The headers of a message have names that
//! are made from the header's: `http.request.header.KEY` and `http.response.header.KEY`, in lower
//! case, with a list of strings as the value.

// ---- Requests of HTTP

/// The method of a request, as it is written, or `_OTHER` if it isn't known. Example: `GET`.
pub const HTTP_REQUEST_METHOD: &str = "http.request.method";

/// The method of a request as it was sent, if `http.request.method` differs. Example: `GeT`.
pub const HTTP_REQUEST_METHOD_ORIGINAL: &str = "http.request.method_original";

/// How often a client sent the request before, an integer above 0. Example: `3`.
pub const HTTP_REQUEST_RESEND_COUNT: &str = "http.request.resend_count";

/// The status of a response, an integer. Example: `200`.
pub const HTTP_RESPONSE_STATUS_CODE: &str = "http.response.status_code";

/// The path of the handler that a server chose, with names in place of variable parts. It has few
/// values, so a server span is named after it. Example: `/users/:id`.
pub const HTTP_ROUTE: &str = "http.route";

/// The header `User-Agent` of a request. Example: `CERN-LineMode/2.15 libwww/2.17b3`.
pub const USER_AGENT_ORIGINAL: &str = "user_agent.original";

// ---- URLs

/// The whole URL, without a password or a key in it. Example:
/// `https://example.com/search?q=rust#top`.
pub const URL_FULL: &str = "url.full";

/// The scheme of a URL. Example: `https`.
pub const URL_SCHEME: &str = "url.scheme";

/// The path of a URL. Example: `/search`.
pub const URL_PATH: &str = "url.path";

/// The query of a URL, without its `?`. Example: `q=rust`.
pub const URL_QUERY: &str = "url.query";

/// The fragment of a URL, without its `#`. Example: `top`.
pub const URL_FRAGMENT: &str = "url.fragment";

// ---- Both sides of a call

/// The name or address of the server, as the client knows it, without reverse look-up. Example:
/// `example.com`.
pub const SERVER_ADDRESS: &str = "server.address";

/// The port of the server, an integer. Example: `443`.
pub const SERVER_PORT: &str = "server.port";

/// The name or address of the client, behind any proxies if that is known. Example: `10.1.2.80`.
pub const CLIENT_ADDRESS: &str = "client.address";

/// The port of the client, an integer. Example: `65123`.
pub const CLIENT_PORT: &str = "client.port";

// ---- The network

/// The protocol of the application, in lower case. Example: `http`.
pub const NETWORK_PROTOCOL_NAME: &str = "network.protocol.name";

/// The version of that protocol that both sides use. Example: `1.1`.
pub const NETWORK_PROTOCOL_VERSION: &str = "network.protocol.version";

/// The transport: `tcp`, `udp`, `pipe`, `quic` or `unix`. Example: `tcp`.
pub const NETWORK_TRANSPORT: &str = "network.transport";

/// The kind of the addresses: `ipv4` or `ipv6`. Example: `ipv6`.
pub const NETWORK_TYPE: &str = "network.type";

/// The address of this side of the connection. Example: `10.1.2.80`.
pub const NETWORK_LOCAL_ADDRESS: &str = "network.local.address";

/// The port of this side of the connection, an integer. Example: `65123`.
pub const NETWORK_LOCAL_PORT: &str = "network.local.port";

/// The address of the other side of the connection, which may be a proxy. Example: `10.1.2.81`.
pub const NETWORK_PEER_ADDRESS: &str = "network.peer.address";

/// The port of the other side of the connection, an integer. Example: `8080`.
pub const NETWORK_PEER_PORT: &str = "network.peer.port";

// ---- Errors

/// The kind of the error with which an operation ended: a name with few values, such as a status,
/// the name of a type, or `_OTHER`. It isn't set after a success. Example: `500`.
pub const ERROR_TYPE: &str = "error.type";

/// The type of an error, in an event `exception`. Example: `std::io::Error`.
pub const EXCEPTION_TYPE: &str = "exception.type";

/// What an error says, in an event `exception`. Example: `connection refused`.
pub const EXCEPTION_MESSAGE: &str = "exception.message";

/// The calls that led to an error, in an event `exception`. Example: `at main (src/main.rs:3)`.
pub const EXCEPTION_STACKTRACE: &str = "exception.stacktrace";

/// Whether the error left the span, a boolean. Deprecated: errors that don't leave the span are no
/// longer recorded. Example: `true`.
pub const EXCEPTION_ESCAPED: &str = "exception.escaped";

// ---- Services

/// The name of a service, in its resource. Example: `shop`.
pub const SERVICE_NAME: &str = "service.name";

/// The version of a service, in its resource. Example: `2.0.0`.
pub const SERVICE_VERSION: &str = "service.version";

/// The name of the SDK, in a resource. Example: `opentelemetry`.
pub const TELEMETRY_SDK_NAME: &str = "telemetry.sdk.name";

/// The language of the SDK, in a resource. Example: `rust`.
pub const TELEMETRY_SDK_LANGUAGE: &str = "telemetry.sdk.language";

/// The version of the SDK, in a resource. Example: `1.2.3`.
pub const TELEMETRY_SDK_VERSION: &str = "telemetry.sdk.version";

// ---- Databases

/// The database system. Example: `postgresql`.
pub const DB_SYSTEM_NAME: &str = "db.system.name";

/// The name of the database, with all parts that it has in the system. Example: `customers`.
pub const DB_NAMESPACE: &str = "db.namespace";

/// The name of the table, the collection or the container. Example: `orders`.
pub const DB_COLLECTION_NAME: &str = "db.collection.name";

/// The name of the operation or command. Example: `SELECT`.
pub const DB_OPERATION_NAME: &str = "db.operation.name";

/// The number of operations in a batch, an integer. It isn't set for one operation. Example: `3`.
pub const DB_OPERATION_BATCH_SIZE: &str = "db.operation.batch.size";

/// A query, with a placeholder such as `?` in place of each literal. Example:
/// `SELECT * FROM orders WHERE id = ?`.
pub const DB_QUERY_TEXT: &str = "db.query.text";

/// A query in few words, which the span is named after. Example: `SELECT orders`.
pub const DB_QUERY_SUMMARY: &str = "db.query.summary";

/// The status that the database returned, a string. Example: `ORA-17002`.
pub const DB_RESPONSE_STATUS_CODE: &str = "db.response.status_code";

/// The name of a stored procedure. Example: `GetCustomer`.
pub const DB_STORED_PROCEDURE_NAME: &str = "db.stored_procedure.name";

// ---- Code

/// The function that did the work, with its path. Example: `shop::cart::load`.
pub const CODE_FUNCTION_NAME: &str = "code.function.name";

/// The path of the source file. Example: `src/cart.rs`.
pub const CODE_FILE_PATH: &str = "code.file.path";

/// The line in that file, an integer. Example: `42`.
pub const CODE_LINE_NUMBER: &str = "code.line.number";

/// The column in that line, an integer. Example: `16`.
pub const CODE_COLUMN_NUMBER: &str = "code.column.number";

/// The calls that led to this point. Example: `at main (src/main.rs:3)`.
pub const CODE_STACKTRACE: &str = "code.stacktrace";

// ---- OpenTelemetry itself

/// The name of the instrumentation scope, in formats that have no place of their own for it.
/// Example: `shop.http`.
pub const OTEL_SCOPE_NAME: &str = "otel.scope.name";

/// The version of the instrumentation scope, likewise. Example: `1.0.0`.
pub const OTEL_SCOPE_VERSION: &str = "otel.scope.version";

/// The status of a span, `OK` or `ERROR`, in formats that have no place of their own for it.
/// Example: `ERROR`.
pub const OTEL_STATUS_CODE: &str = "otel.status_code";

/// The description of a span's status, likewise. Example: `no price`.
pub const OTEL_STATUS_DESCRIPTION: &str = "otel.status_description";
